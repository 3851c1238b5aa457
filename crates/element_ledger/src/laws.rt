//! Each element stands once in a ledger, so a change of one leaves the others. A law is a function with
//! nothing to do, whose contract is the law.

ghost use Rattle.std.specs.Prelude.{◌≡◌, ℕ, false, List, map, Some};
ghost use Rattle.smc_num.specs.Places.{same_place};
ghost use Rattle.element_ledger.specs.declared.Element.{Element};
ghost use Rattle.element_ledger.specs.declared.rows.Lending.{Lending};
ghost use Rattle.element_ledger.specs.declared.rows.Change.TheVariants.{OwnGone, PeerGone, GivenBack};
ghost use Rattle.element_ledger.specs.Lendings.{Row, Rows, IsLedger, StandsOnce, HasLending, first_free, lending_of, changes_at, changed, lends, freed, place_of};

/// The first free element stands once in its ledger.
pub fn the_first_free_element_stands_once()
    ensures { (v : Rows) (r : Row) → IsLedger v → first_free v.rows ≡ Some r → StandsOnce r v.rows }
{}

/// An element that is lent stands once in its ledger.
pub fn a_lent_element_stands_once()
    ensures { (v : Rows) (e : Element) (l : Lending) → IsLedger v → lending_of e v.rows ≡ Some l → HasLending e l v.rows }
{}

/// An element that is lent anew leaves the lendings of all others.
pub fn a_new_lending_leaves_the_others()
    ensures { (v : Rows) (r : Row) (conn : ℕ) (e : Element) (l : Lending) → IsLedger v → first_free v.rows ≡ Some r → lending_of e v.rows ≡ Some l
        → lending_of e (map (changes_at r.place (lends conn)) v.rows) ≡ Some l }
{}

/// An element that is given back leaves the lendings of all others.
pub fn an_element_given_back_leaves_the_others()
    ensures { (rows : List Row) (e other : Element) → same_place (place_of e) (place_of other) ≡ false
        → lending_of other (map (changes_at (place_of e) freed) rows) ≡ lending_of other rows }
{}

/// An element both of whose ends go, and that is given back then, is lent to nobody.
pub fn both_ends_go_and_the_element_is_freed()
    ensures { (rows : List Row) (e : Element)
        → map (changes_at (place_of e) (changed GivenBack)) (map (changes_at (place_of e) (changed PeerGone)) (map (changes_at (place_of e) (changed OwnGone)) rows))
        ≡ map (changes_at (place_of e) freed) rows }
{}
