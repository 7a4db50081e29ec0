ghost use Rattle.std.specs.Prelude.{◌≡◌, IfSome};
ghost use Rattle.tlv.specs.Entries.{entry_at, Located};

use crate::header::{Kind, Tag, read_header};

/// An entry as it lies in a payload: its type byte at `place`, its value from `from` to `to`.
/// Offsets and no slice, because what lies inside is told by its place in the payload, which a slice forgets.
/// It has no `Tag` inside, because `e.kind` says plainly what most uses ask; `tag` gives the two together.
#[derive(Clone, Copy, Debug, PartialEq, Eq)]
pub struct Entry {
    pub kind: Kind,
    pub id: u16,
    pub place: usize,
    pub from: usize,
    pub to: usize,
}

impl Entry {
    pub fn tag(self) -> Tag
        ensures { result ≡ record { kind = self.kind; id = self.id } }
    {
        Tag {
            kind: self.kind,
            id: self.id,
        }
    }
}

/// The entry at `at` of a container that ends at `end`; None where none lies there whole.
#[tactic(auto, unfolding(crate::specs::Entries::entry_at))]
pub fn entry_at(bytes: &[u8], at: usize, end: usize) -> Option<Entry>
    ensures says { result ≡ entry_at bytes.now at end }
    ensures known { IfSome result (Located bytes.now at end) }
{
    let left = bytes.get(at..end)?;
    let h = read_header(left)?;
    // Asked of what is left and not of `to`, so that the next entry's place need not wait for the answer.
    if h.size > left.len().checked_sub(h.len)? {
        return None;
    }
    let from = at + h.size;
    Some(Entry {
        kind: h.kind,
        id: h.id,
        place: at,
        from,
        to: from + h.len,
    })
}
