ghost use Rattle.std.specs.Prelude.{◌≡◌, ◌<◌};
ghost use Rattle.hall_floor.specs.Halls.{cells, is_open, beyond as cell_beyond, over as leg_over, hall_exits, pitch as pitch_over, hall_length};
ghost use Rattle.hall_floor.specs.Held.{hall_of};
ghost use Rattle.hall_floor.specs.Fitting.{cells_some, cells_most, width_some};
ghost use Rattle.hall_floor.specs.Legs.{over_lies, exits_rise, exits_inside, exits_away, exits_beyond, lengths_led, lengths_some, lengths_most};

use crate::hall::HallFloor;
use crate::sides::Side;
use floors::floor::{Floor, Measured};

/// The sides of a cell, in the order in which the cells beyond them rise.
const SIDES: [Side; 4] = [Side::North, Side::West, Side::East, Side::South];

impl HallFloor {
    /// Whether a place is a cell that is not blocked.
    #[tactic(auto, unfolding(crate::specs::Halls::is_open), using(std::proofs::lemmas::List::get_or_read))]
    fn is_open(&self, place: u16) -> bool
        ensures { result ≡ is_open (hall_of self.now) place }
    {
        place < self.place_count() && (self.blocked[usize::from(place / 8)] >> (place % 8)) % 2 == 0
    }

    /// The cell beyond a side of a cell, if there is one.
    fn beyond(&self, place: u16, side: Side) -> Option<u16>
        requires { place < cells (hall_of self.now) }
        ensures { result ≡ cell_beyond (hall_of self.now) place side }
    {
        match side {
            Side::North => place.checked_sub(self.width),
            Side::West => (place % self.width != 0).then(|| place - 1),
            Side::East => (place % self.width + 1 < self.width).then(|| place + 1),
            Side::South => Some(place + self.width).filter(|&cell| cell < self.place_count()),
        }
    }

    /// Where the leg over a side of a cell leads, if there is one.
    #[tactic(auto, unfolding(crate::specs::Halls::over), using(crate::specs::Legs::open_inside))]
    fn over(&self, place: u16, side: Side) -> Option<u16>
        ensures { result ≡ leg_over (hall_of self.now) place side }
    {
        if !self.is_open(place) {
            return None;
        }
        self.beyond(place, side).filter(|&cell| self.is_open(cell))
    }

    /// The pitch between a cell and the cell beyond a side of it.
    fn pitch(&self, side: Side) -> u16
        ensures { result ≡ pitch_over (hall_of self.now) side }
    {
        match side {
            Side::North | Side::South => self.down,
            Side::West | Side::East => self.across,
        }
    }
}

impl Floor for HallFloor {
    ghost size = { λ f. cells (hall_of f) };

    ghost exits = { λ f p. hall_exits (hall_of f) p };

    ghost some = { λ f. cells_some (hall_of f) f.fit };

    ghost most = { λ f. cells_most (hall_of f) f.fit };

    ghost rising = { λ f p.
        let wide = width_some (hall_of f) f.fit in
        exits_rise (hall_of f) wide (over_lies (hall_of f) wide) p };

    ghost inside = { λ f p q. exits_inside (hall_of f) p q };

    ghost away = { λ f p.
        let wide = width_some (hall_of f) f.fit in
        exits_away (hall_of f) wide (over_lies (hall_of f) wide) p };

    ghost beyond = { λ f p outside. exits_beyond (hall_of f) p outside };

    fn place_count(&self) -> u16 {
        self.width * self.height
    }

    fn exit_count(&self, place: u16) -> u16 {
        SIDES
            .iter()
            .fold(0, |count, &side| match self.over(place, side) {
                Some(_) => count + 1,
                None => count,
            })
    }

    #[tactic(auto, unfolding(crate::specs::Halls::hall_exits))]
    fn exit(&self, place: u16, i: u16) -> Option<u16> {
        SIDES
            .iter()
            .filter_map(|&side| self.over(place, side))
            .nth(usize::from(i))
    }
}

impl Measured for HallFloor {
    ghost span = { λ f p q. hall_length (hall_of f) p q };

    ghost led = { λ f p q. lengths_led (hall_of f) p q };

    ghost long = { λ f. lengths_some (hall_of f) f.fit };

    ghost short = { λ f. lengths_most (hall_of f) f.fit };

    #[tactic(auto, unfolding(crate::specs::Halls::hall_length))]
    fn length(&self, from: u16, to: u16) -> Option<u16> {
        SIDES
            .iter()
            .find(|&&side| self.over(from, side) == Some(to))
            .map(|&side| self.pitch(side))
    }
}
