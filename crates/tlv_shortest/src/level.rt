ghost use Rattle.std.specs.Prelude.{◌≡◌, ◌+◌, ◌<◌, ◌≤◌, length};
ghost use Rattle.tlv.specs.Walk.{entries_left, walked};
ghost use Rattle.tlv_shortest.specs.Items.{items_from, encoded_all};
ghost use Rattle.tlv_shortest.specs.Shortest.{item_length};

use tlv::{Entries, Tag, short_header};
use tlv_writer::{append_entry, append_header};

/// The entries of one container of a payload, read so many levels deep.
/// The levels are counted, because the count makes reading end; the grammar has three.
#[derive(Clone, Copy, Debug, PartialEq, Eq)]
pub struct Level<'a> {
    entries: Entries<'a>,
    depth: usize,
    // In shortest form they fit in the value of one entry.
    ghost short: { length (encoded_all (items_from depth (walked entries) (entries_left entries))) < 16777216 },
}

impl<'a> Level<'a> {
    ghost use Rattle.tlv_shortest.specs.Items.{items};
    ghost use Rattle.tlv_shortest.specs.Levels.{items_left};

    /// The entries of a whole payload. Below it lie an Object Instance and, in that, a multiple Resource.
    #[tactic(auto, using(crate::proofs::Bounds::whole_payload))]
    pub fn of_payload(payload: &'a [u8]) -> Level<'a>
        requires { length payload.now ≤ 4096 }
        ensures { items_left result ≡ items payload.now }
    {
        Level {
            entries: Entries::of_payload(payload),
            depth: 3,
        }
    }
}

/// An entry by what its value holds: bytes, or entries of its own.
#[derive(Clone, Copy, Debug, PartialEq, Eq)]
pub enum Item<'a> {
    Plain(Tag, &'a [u8]),
    Holder(Tag, Level<'a>),
}

impl<'a> Iterator for Level<'a> {
    ghost use Rattle.std.specs.Iterator.{at_most};
    ghost use Rattle.tlv_shortest.specs.Levels.{items_left, form_of, with_item};

    type Item = Item<'a>;

    ghost next_gives = { λ s r t. items_left s ≡ with_item r (items_left t) };

    ghost remaining = { λ s. at_most (length (form_of s)) };

    #[tactic(auto, using(crate::proofs::Steps::reading))]
    fn next(&mut self) -> Option<Item<'a>> {
        let depth = self.depth.checked_sub(1)?;
        let e = self.entries.next()?;
        Some(if e.kind.contents().is_some() {
            let entries = self.entries.inside(e);
            Item::Holder(e.tag(), Level { entries, depth })
        } else {
            Item::Plain(e.tag(), self.entries.value(e))
        })
    }
}

// The length of an entry in shortest form, whose value has `content` bytes.
fn item_len(tag: Tag, content: usize) -> usize
    requires { content < 16777216 }
    ensures { result ≡ item_length tag.kind tag.id content }
{
    let (_, header) = short_header(tag, content).unwrap();
    header + content
}

impl Level<'_> {
    ghost use Rattle.tlv_writer.specs.Write.{written};
    ghost use Rattle.tlv_shortest.specs.Levels.{form_of};

    // The length of its items in shortest form.
    // A loop and no sum over them, because what makes each length fit is that the whole fits.
    pub(crate) fn form_len(self) -> usize
        ensures { result ≡ length (form_of self.entry) }
    {
        let mut len = 0;
        for item in self {
            len += match item {
                Item::Plain(tag, value) => item_len(tag, value.len()),
                Item::Holder(tag, inner) => item_len(tag, inner.form_len()),
            };
        }
        len
    }

    // Writes its items in shortest form at `from`; answers where they end. A header tells how long its value
    // is, so that is measured first. The buffer is lent, and the offset told, because memory is fixed.
    pub(crate) fn write(self, out: &mut [u8], from: usize) -> usize
        requires { from + length (form_of self) ≤ length out.old }
        ensures ends { result ≡ from + length (form_of self.entry) }
        ensures writes { out.new ≡ written out.old from (form_of self.entry) }
    {
        let mut to = from;
        for item in self {
            to = match item {
                Item::Plain(tag, value) => append_entry(out, to, tag, value).unwrap(),
                Item::Holder(tag, inner) => {
                    let inner_at = append_header(out, to, tag, inner.form_len()).unwrap();
                    inner.write(out, inner_at)
                }
            };
        }
        to
    }
}
