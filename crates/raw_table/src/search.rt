// The one search of find, value and insert.
ghost use Rattle.std.specs.Prelude.{◌≡◌, ◌-◌, ◌/◌, ◌≤◌, ◌<◌, length};
ghost use Rattle.rules.specs.Bytes.{same_bytes};
ghost use Rattle.rules.specs.Hash.{tag_of, start_of};
ghost use Rattle.rules.specs.Group.{reports};
ghost use Rattle.rules.specs.Search.{group_at, search_from, spot_of};
ghost use Rattle.memory_layout.specs.TableParts.{in_table, key_in};
ghost use Rattle.group_query.specs.Marks.{word, empties};
ghost use Rattle.raw_table.specs.Seq.{seq_at};
ghost use Rattle.raw_table.specs.Said.{said_spot};

use crate::probe::ProbeSeq;
use group_query::{GroupQuery, lowest_of, without_lowest};
use memory_layout::kinds::{Position, Slot};
use memory_layout::table::Table;

// Where a search ends, with the number of groups examined.
#[derive(Clone, Copy, Debug, PartialEq, Eq)]
pub enum Spot {
    Same(Slot, usize),
    Free(Slot, usize),
    Full(usize),
}

// Whether two keys have the same bytes, byte by byte: for keys that are shorter than a word.
fn same_few(a: &[u8], b: &[u8]) -> bool
    ensures { result ≡ same_bytes a.now b.now }
{
    a == b
}

// Whether two keys have the same bytes. Of one word there is no loop; of more the last overlaps what was compared before it, so that no bytes are left over.
pub fn equals(a: &[u8], b: &[u8]) -> bool
    ensures { result ≡ same_bytes a.now b.now }
{
    if a.len() != b.len() {
        return false;
    }
    if a.len() == 8 {
        return fxhash::read_u64(a, 0) == fxhash::read_u64(b, 0);
    }
    if a.len() < 8 {
        return same_few(a, b);
    }
    let last = a.len() - 8;
    for i in (0..last).step_by(8) {
        if fxhash::read_u64(a, i) != fxhash::read_u64(b, i) {
            return false;
        }
    }
    fxhash::read_u64(a, last) == fxhash::read_u64(b, last)
}

// Whether a slot holds the key.
#[inline]
pub fn holds(table: &Table, slot: Slot, key: &[u8]) -> bool
    requires { slot.0 < table.now.slots.n }
    ensures { result ≡ same_bytes (key_in table.now slot.0) key.now }
{
    equals(table.key(slot), key)
}

// The query over the group at a control position.
fn query_at(table: &Table, p: Position, h2: u8) -> GroupQuery
    requires { p.0 < table.now.slots.n }
    ensures { (result.eq ≡ word (reports h2 (in_table table.now (group_at 8) p.0))) × (result.empty ≡ word (empties (in_table table.now (group_at 8) p.0))) }
{
    GroupQuery::from(
        table.bytes,
        table.sizes.control_offset(p, table.slots).0,
        h2,
    )
}

// The search from a group on, those before it having decided nothing. It is called, and its table is a value: put in the place of its call, or lent
// a table, it costs every search that ends in the first group some instructions more.
#[inline(never)]
fn search_from(table: Table, key: &[u8], h2: u8, from: ProbeSeq, before: usize) -> Spot
    requires { (h2 ≡ tag_of key.now) × (before ≤ table.slots.n / 8) × (from ≡ seq_at (start_of table.slots.n key.now) table.slots.n before) }
    ensures { said_spot result ≡ in_table table.entry (search_from 8 reports) key.now (table.entry.slots.n / 8 - before) before }
{
    let slots = table.slots;
    let groups = slots.n / 8;
    let mut answer = Spot::Full(groups);
    let mut ps = from;
    'search: for n in before..groups {
        let p = Position(ps.index);
        let query = query_at(&table, p, h2);
        let mut left = query.eq;
        while left != 0 {
            let slot = slots.slot_of(p, lowest_of(left));
            if holds(&table, slot, key) {
                answer = Spot::Same(slot, n + 1);
                break 'search;
            }
            left = without_lowest(left);
        }
        if let Some(m) = query.first_empty() {
            answer = Spot::Free(slots.slot_of(p, m), n + 1);
            break 'search;
        }
        ps = ps.advance(slots);
    }
    answer
}

// Most searches end in the first group, at its first candidate or, where it has none, at an empty slot. That is told before any loop.
pub fn search(table: &Table, key: &[u8]) -> Spot
    ensures { said_spot result ≡ in_table table.now spot_of key.now }
{
    let slots = table.slots;
    let hash = fxhash::hash(key);
    let h2 = fxhash::h2(hash);
    let mut ps = ProbeSeq::new(fxhash::h1(hash), slots);
    let mut n: usize = 0;
    let p = Position(ps.index);
    let query = query_at(table, p, h2);
    let has_candidate = query.eq != 0;
    if has_candidate {
        let slot = slots.slot_of(p, lowest_of(query.eq));
        if holds(table, slot, key) {
            return Spot::Same(slot, 1);
        }
    } else {
        if let Some(m) = query.first_empty() {
            return Spot::Free(slots.slot_of(p, m), 1);
        }
        ps = ps.advance(slots);
        n = 1;
    }
    search_from(*table, key, h2, ps, n)
}
