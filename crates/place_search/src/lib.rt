// Where a number stands in a list of words. The search ends at the first number not below the one sought, and tells how many numbers it read.
#![tactic(auto)]

ghost use Rattle.std.specs.Prelude.{◌≡◌};
ghost use Rattle.place_search.specs.Places.{place_in, read_for, words_in, found_at, saturated};

use layout::inner::word_in;

// What a search answers (F-3): the number's place, from 1, or none, and how many numbers it read.
#[derive(Clone, Copy, Debug, PartialEq, Eq)]
pub struct Search {
    pub found: Option<usize>,
    pub read: usize,
}

// Searches the words of a list for a number: each is read once, in their order, up to the first that is not below the one sought.
pub fn find(list: &[u8], sought: usize) -> Search
    ensures { let ws = words_in list.now in (result.found ≡ found_at (place_in sought ws)) × (result.read ≡ read_for sought ws) }
{
    let n = list.len() / 2;
    // a loop and not `position`, which would have the number at which it stops read once more
    for k in 0..n {
        let y = word_in(list, 2 * k);
        if sought <= y {
            return Search {
                found: (sought == y).then_some(k + 1),
                read: k + 1,
            };
        }
    }
    Search {
        found: None,
        read: n,
    }
}

// A count in 32 bits; the greatest number there stands for every greater one, too.
fn saturate(n: usize) -> u32
    ensures { result ≡ saturated n }
{
    u32::try_from(n).unwrap_or(u32::MAX)
}

// The place of a cell in a list of words, from 1, and 0 for none. How many numbers were read goes to `read`.
// A number, and not the `Option` of `find`: C gets it as it stands, from `jem_place`.
pub fn place(list: &[u8], cell: u32, read: &mut u32) -> u64
    ensures { let ws = words_in list.now in (result ≡ place_in cell ws) × (read.new ≡ saturated (read_for cell ws)) }
{
    let s = find(list, cell as usize);
    *read = saturate(s.read);
    match s.found {
        Some(p) => p as u64,
        None => 0,
    }
}
