// What a part exports to each part. One other part after another stamps the cells that it holds; those of the exporting part among them are its exports. The cells
// of a part are linked, so that they are followed and not searched for.
ghost use Rattle.std.specs.Prelude.{◌≡◌, ◌+◌, ◌≤◌, ◌<◌, length, replicate};
ghost use Rattle.layout.specs.Limits.{most_elements, most_parts};
ghost use Rattle.split_classes.specs.Classes.{reach_has, Appended};
ghost use Rattle.split_classes.specs.Groups.{group};
ghost use Rattle.part_start_lists.specs.Starting.{Stamped, reached_from, Below, class_among, sent_ends, sent_list, OwnersFew, Sent};

use crate::inner::Plan;
use layout::{get_or, put_at, word_at};
use split_cells::inner::add_place;
use split_classes::inner::{CLASSES, clear_row, group_cells};

// Stamps the cells in the reach of the cell at place q with k.
pub fn stamp_reach(table: &[u8], ends: &[u16], q: usize, k: u8, stamps: &mut [u8])
    requires { (q < 65536) × (length stamps.old ≡ most_elements) }
    ensures { Stamped k stamps.old stamps.new (reach_has table.now ends.now q) }
{
    let from = get_or(ends, q, 0) as usize;
    let to = get_or(ends, q + 1, 0) as usize;
    for t in from..to {
        put_at(stamps, word_at(table, 2 * t), k);
    }
}

// Stamps the cells with k that the cells of a group reach, from link s on.
fn stamp_group(
    table: &[u8],
    ends: &[u16],
    next: &[u16],
    s: u16,
    cells: usize,
    k: u8,
    stamps: &mut [u8],
)
    requires { length stamps.old ≡ most_elements }
    ensures { Stamped k stamps.old stamps.new (reached_from table.now ends.now (group next.now cells s)) }
{
    let mut link = s;
    for _j in 0..cells {
        if link == 0 {
            return;
        }
        let q = link as usize - 1;
        stamp_reach(table, ends, q, k, stamps);
        link = get_or(next, q, 0);
    }
}

// Adds the cells of a group that bear the stamp k, from link s on.
fn add_stamped(
    next: &[u16],
    s: u16,
    stamps: &[u8],
    first: usize,
    cells: usize,
    k: u8,
    list: &mut [u16],
    n: usize,
) -> usize
    requires { (first + cells ≤ 65536) × (cells ≤ most_elements) × (n < 65536) × Below cells (group next.now cells s) }
    ensures { Appended list.old list.new n result (class_among stamps.now first k (group next.now cells s))
        × (result ≤ n + cells) }
{
    let mut link = s;
    let mut t = n;
    for _j in 0..cells {
        if link == 0 {
            return t;
        }
        let q = link as usize - 1;
        t = add_place(stamps, first, k, q, list, t);
        link = get_or(next, q, 0);
    }
    t
}

// Lists what the part exports to each part, one part after another, and counts it in a cleared array. The stamps and the links are work space. To itself it
// exports nothing. Once all exports are found, the later parts take none. Table and ends are slices of any length: docs/ARCHITECTURE.md names
// this call, and no type of one size may ask more.
pub fn find_sent(
    owners: &[u8],
    table: &[u8],
    ends: &[u16],
    plan: Plan,
    stamps: &mut [u8],
    next: &mut [u16],
    list: &mut [u16],
    sent: &mut [u16],
) -> usize
    requires { (1 ≤ plan.asked.part)
        × (plan.asked.part ≤ most_parts)
        × (plan.asked.first + plan.asked.cells ≤ 65536)
        × (plan.asked.cells ≤ most_elements)
        × (plan.asked.parts ≤ most_parts)
        × OwnersFew owners.now plan.asked.cells plan.asked.parts
        × (length stamps.old ≡ most_elements)
        × (most_elements ≤ length next.old)
        × (sent.old ≡ replicate (most_parts + 1) 0)
        × (plan.sent ≡ sent_ends owners.now table.now ends.now plan.asked.part plan.asked.first plan.asked.cells most_parts) }
    ensures { Appended list.old list.new 0 result (sent_list owners.now table.now ends.now plan.asked.part plan.asked.first
        plan.asked.cells most_parts)
        × Sent owners.now table.now ends.now plan.asked.part plan.asked.cells most_parts sent.new }
{
    let mut start = [0u16; CLASSES];
    group_cells(owners, plan.asked.cells, &mut start, next);
    clear_row(stamps);
    let own = get_or(&start, plan.asked.part, 0);
    let mut n = 0;
    for j in 0..plan.asked.parts {
        if n == plan.sent {
            return n;
        }
        if j + 1 == plan.asked.part {
            continue;
        }
        let k = (j + 1) as u8;
        let other = get_or(&start, j + 1, 0);
        stamp_group(table, ends, next, other, plan.asked.cells, k, stamps);
        let t = add_stamped(
            next,
            own,
            stamps,
            plan.asked.first,
            plan.asked.cells,
            k,
            list,
            n,
        );
        put_at(sent, j + 1, (t - n) as u16);
        n = t;
    }
    n
}
