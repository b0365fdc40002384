// The cells at an element, one after another, along the trail of its entries.
ghost use Rattle.std.specs.Prelude.{◌≡◌};
ghost use Rattle.std.specs.Iterator.{YieldsFirst, item_count};
ghost use Rattle.walk_incidence.specs.Links.{trail, cells_on, seen};
ghost use Rattle.layout.specs.Limits.{record_places};

use crate::inner::IncidenceRef;
use layout::get_or;
use layout::limits::RECORD_PLACES;

// What is left of a trail: the entries from `entry` on, of which there are at most `left`.
#[derive(Drop)]
pub struct Trail<'a> {
    pub incidence: IncidenceRef<'a>,
    pub entry: usize,
    pub left: usize,
}

impl<'a> Iterator for Trail<'a> {
    ghost use Rattle.walk_incidence.specs.Trails.{rest};

    type Item = u16;

    ghost next_gives = { YieldsFirst rest };

    ghost remaining = { item_count rest };

    fn next(&mut self) -> Option<u16> {
        if self.left == 0 || self.entry == 0 {
            return None;
        }
        let cell = get_or(self.incidence.cell, self.entry, 0);
        self.entry = get_or(self.incidence.prev, self.entry, 0) as usize;
        self.left -= 1;
        Some(cell)
    }
}

impl<'a> IncidenceRef<'a> {
    ghost use Rattle.walk_incidence.specs.Trails.{rest};

    // The cells of the trail from entry t on.
    pub fn trail_from(self, t: usize) -> Trail<'a>
        ensures { rest result ≡ trail self.entry.cell.now self.entry.prev.now record_places t }
    {
        Trail {
            incidence: self,
            entry: t,
            left: RECORD_PLACES,
        }
    }

    // The cells at element e, falling.
    pub fn cells_at(self, e: usize) -> Trail<'a>
        ensures { rest result ≡ cells_on (seen self.entry) e }
    {
        self.trail_from(get_or(self.last, e, 0) as usize)
    }
}
