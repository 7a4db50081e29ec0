ghost use Rattle.std.specs.Prelude.{◌≡◌, ◌^◌, ◌<◌, length};
ghost use Rattle.tlv.specs.Entries.{entries, value_of};

use crate::entries::{Entry, entry_at};

/// The entries of a container, one behind the other, and the bytes in which they lie.
#[derive(Clone, Copy, Debug, PartialEq, Eq)]
pub struct Entries<'a> {
    bytes: &'a [u8],
    at: usize,
    end: usize,
    // So they can be counted, and what each of them adds summed up.
    ghost few: { length (entries bytes.now at end) < 2 ^ 64 },
}

impl<'a> Entries<'a> {
    ghost use Rattle.tlv.specs.Walk.{entries_left, walked};

    // The entries that lie from `at` to `end`.
    #[tactic(auto, using(crate::proofs::Walks::few_entries))]
    pub(crate) fn between(bytes: &'a [u8], at: usize, end: usize) -> Entries<'a>
        ensures left { entries_left result ≡ entries bytes.now at end }
        ensures same { walked result ≡ bytes.now }
    {
        Entries { bytes, at, end }
    }

    /// The entries of a whole payload.
    pub fn of_payload(bytes: &'a [u8]) -> Entries<'a>
        ensures left { entries_left result ≡ entries bytes.now 0 (length bytes.now) }
        ensures same { walked result ≡ bytes.now }
    {
        Entries::between(bytes, 0, bytes.len())
    }

    /// The entries that lie in the value of an entry of the same bytes.
    pub fn inside(&self, e: Entry) -> Entries<'a>
        ensures left { entries_left result ≡ entries (walked self.now) e.from e.to }
        ensures same { walked result ≡ walked self.now }
    {
        Entries::between(self.bytes, e.from, e.to)
    }

    /// The value of an entry of the same bytes: a part of them, as far as there are bytes.
    pub fn value(&self, e: Entry) -> &'a [u8]
        ensures { result.now ≡ value_of (walked self.now) e }
    {
        let end = e.to.min(self.bytes.len());
        &self.bytes[e.from.min(end)..end]
    }
}

impl Iterator for Entries<'_> {
    ghost use Rattle.std.specs.Iterator.{item_count};
    ghost use Rattle.tlv.specs.Walk.{Steps, entries_left};

    type Item = Entry;

    ghost next_gives = { Steps };

    ghost remaining = { item_count entries_left };

    #[tactic(auto, using(crate::proofs::Walks::walking, crate::proofs::Walks::few_entries))]
    fn next(&mut self) -> Option<Entry> {
        let e = entry_at(self.bytes, self.at, self.end)?;
        self.at = e.to;
        Some(e)
    }
}
