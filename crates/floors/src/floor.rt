ghost use Rattle.std.specs.Prelude.{◌≡◌, ℕ, ◌<◌, ◌≤◌, true, false, List, [], length, is_some, Some, Option};
ghost use Rattle.std.specs.List.{slice_get};
ghost use Rattle.floors.specs.Exits.{Rises, has};

/// A floor: its places are numbered from 0, and its legs lead one way, from a place to another place.
/// The exits of a place are the places to which its legs lead.
pub trait Floor: Sized {
    /// How many places the floor has.
    ghost size: { Self → ℕ };

    /// The exits of each place.
    ghost exits: { Self → ℕ → List ℕ };

    /// The number of places.
    fn place_count(&self) -> u16
        ensures { result ≡ size self.now };

    /// The number of exits of a place.
    fn exit_count(&self, place: u16) -> u16
        ensures { result ≡ length (exits self.now place) };

    /// Exit `i` of a place, counted from 0; none beyond the last.
    fn exit(&self, place: u16, i: u16) -> Option<u16>
        ensures { result ≡ slice_get (exits self.now place) i };

    /// A floor has at least 1 place.
    ghost some: { (f : Self) → 1 ≤ size f };

    /// A floor has at most 1,024 places.
    ghost most: { (f : Self) → size f ≤ 1024 };

    /// The exits of a place are in rising order, so no two legs have both ends alike.
    ghost rising: { (f : Self) (p : ℕ) → Rises (exits f p) };

    /// Each leg leads to a place of the floor.
    ghost inside: { (f : Self) (p q : ℕ) → has q (exits f p) ≡ true → q < size f };

    /// No leg leads to the place where it begins.
    ghost away: { (f : Self) (p : ℕ) → has p (exits f p) ≡ false };

    /// A place beyond the floor has no exits.
    ghost beyond: { (f : Self) (p : ℕ) → size f ≤ p → exits f p ≡ [] };
}

/// A measured floor: a floor that also tells how long a leg is.
pub trait Measured: Floor {
    /// The length in decimetres of the leg from a place to a place, if one leads there.
    ghost span: { Self → ℕ → ℕ → Option ℕ };

    /// The length of the leg between two places; none where no leg leads.
    fn length(&self, from: u16, to: u16) -> Option<u16>
        ensures { result ≡ span self.now from to };

    /// There is a length exactly where a leg leads.
    ghost led: { (f : Self) (p q : ℕ) → is_some (span f p q) ≡ has q (Self.Floor.exits f p) };

    /// A length is at least 1 decimetre.
    ghost long: { (f : Self) (p q d : ℕ) → span f p q ≡ Some d → 1 ≤ d };

    /// A length is at most 65,535 decimetres.
    ghost short: { (f : Self) (p q d : ℕ) → span f p q ≡ Some d → d ≤ 65535 };
}
