//! The table of all jets.

ghost use Rattle.std.specs.Prelude.{◌≡◌, ◌+◌, ◌<◌, ◌≤◌, ◌++◌, [], ◌∷◌, length, map, Contains, slice_get, option_map, Some, IsTrue, IfSome, IfNone, position};
ghost use Rattle.std.specs.Str.{bytes_eq};
ghost use Rattle.std.specs.List.{flat_map};
ghost use Rattle.jets.specs.Jet as jet;
ghost use Rattle.jets.specs.Jet.{family, row_name};
ghost use Rattle.jet_table.specs.Rows.{is_packed, packed_before, placed, row_of, IsRow};
ghost use Rattle.jet_table.specs.Names.{is_rising};

use crate::families;
use crate::row::JetRow;
use std::marker::Model;
use word_math::Op;

/// The number of jets.
pub const JETS: usize = 269;

/// A table of `N` jets.
#[derive(Drop)]
pub struct JetTable<const N: usize> {
    rows: [JetRow; N],
}

impl<const N: usize> Model for JetTable<N> {
    ghost use Rattle.std.specs.Prelude.{◌≡◌, IsTrue, List, length};
    ghost use Rattle.jets.specs.Jet.{Row};
    ghost use Rattle.jet_table.specs.Rows.{are_packed, rows_of};

    ghost Value = { List Row };

    ghost view = { λ t. rows_of t.rows };

    ghost invariant = { λ t. (length t.rows ≡ N) × IsTrue (are_packed t.rows) };
}

impl JetTable<JETS> {
    /// The place of the jet with a name.
    pub fn find(&self, name: &str) -> Option<usize>
        ensures there { IfSome result (λ place.
            option_map row_name (slice_get self.now place) ≡ Some name.now) }
        ensures within { IfSome result (λ place. place < JETS) }
        ensures absent { IfNone result (¬ Contains (map row_name self.now) name.now) }
    {
        place_of(&self.rows, name)
    }

    /// The row at a place.
    pub fn row(&self, place: usize) -> &JetRow
        requires { place < JETS }
        ensures there { slice_get self.now place ≡ Some (row_of result.now) }
        ensures jet { self.now ≡ jet.rows → IsRow (row_of result.now) }
        ensures packed { IsTrue (is_packed result.now) }
    {
        &self.rows[place]
    }
}

/// The place of the first row with a name.
fn place_of(rows: &[JetRow], name: &str) -> Option<usize>
    ensures { result ≡ position (λ row. bytes_eq row.name.now name.now) rows.now }
{
    rows.iter().position(|row| row.name == name)
}

const BLANK: JetRow = JetRow {
    name: "",
    op: Op::Verify,
    narrow: 1,
    wide: 1,
    arguments: [None, None, None, None],
    results: [None, None],
};

/// All jets of the language, in the order of their names' bytes.
pub fn profile() -> JetTable<JETS>
    ensures rows { result ≡ jet.rows }
    ensures rising { IsTrue (is_rising (map row_name result)) }
{
    let mut rows = [BLANK; JETS];
    let at = first(&mut rows, 0);
    let at = second(&mut rows, at);
    let at = third(&mut rows, at);
    let at = fourth(&mut rows, at);
    let at = fifth(&mut rows, at);
    let at = sixth(&mut rows, at);
    seventh(&mut rows, at);
    JetTable { rows }
}

/// From `add` to `div_mod`.
fn first(rows: &mut [JetRow], at: usize) -> usize
    requires { at + 31 ≤ length rows.old }
    ensures place { result ≡ at + 31 }
    ensures written { placed rows.new result ≡ placed rows.old at ++ flat_map family
        (jet.Add ∷ jet.All ∷ jet.And ∷ jet.Ch ∷ jet.Complement ∷ jet.Decrement ∷ jet.DivMod ∷ []) }
    ensures packed { packed_before rows.new result ≡ packed_before rows.old at }
{
    let at = families::add(rows, at);
    let at = families::all(rows, at);
    let at = families::and(rows, at);
    let at = families::ch(rows, at);
    let at = families::complement(rows, at);
    let at = families::decrement(rows, at);
    families::div_mod(rows, at)
}

/// From `divide` to `full_multiply`.
fn second(rows: &mut [JetRow], at: usize) -> usize
    requires { at + 30 ≤ length rows.old }
    ensures place { result ≡ at + 30 }
    ensures written { placed rows.new result ≡ placed rows.old at ++ flat_map family
        (jet.Divide ∷ jet.Divides ∷ jet.Eq ∷ jet.FullAdd ∷ jet.FullDecrement ∷ jet.FullIncrement
        ∷ jet.FullMultiply ∷ []) }
    ensures packed { packed_before rows.new result ≡ packed_before rows.old at }
{
    let at = families::divide(rows, at);
    let at = families::divides(rows, at);
    let at = families::eq(rows, at);
    let at = families::full_add(rows, at);
    let at = families::full_decrement(rows, at);
    let at = families::full_increment(rows, at);
    families::full_multiply(rows, at)
}

/// From `full_subtract` to `left_extend`.
fn third(rows: &mut [JetRow], at: usize) -> usize
    requires { at + 35 ≤ length rows.old }
    ensures place { result ≡ at + 35 }
    ensures written { placed rows.new result ≡ placed rows.old at ++ flat_map family
        (jet.FullSubtract ∷ jet.High ∷ jet.Increment ∷ jet.IsOne ∷ jet.IsZero ∷ jet.Le
        ∷ jet.LeftExtend ∷ []) }
    ensures packed { packed_before rows.new result ≡ packed_before rows.old at }
{
    let at = families::full_subtract(rows, at);
    let at = families::high(rows, at);
    let at = families::increment(rows, at);
    let at = families::is_one(rows, at);
    let at = families::is_zero(rows, at);
    let at = families::le(rows, at);
    families::left_extend(rows, at)
}

/// From `left_pad_high` to `low`.
fn fourth(rows: &mut [JetRow], at: usize) -> usize
    requires { at + 55 ≤ length rows.old }
    ensures place { result ≡ at + 55 }
    ensures written { placed rows.new result ≡ placed rows.old at ++ flat_map family
        (jet.LeftPadHigh ∷ jet.LeftPadLow ∷ jet.LeftRotate ∷ jet.LeftShift ∷ jet.LeftShiftWith
        ∷ jet.Leftmost ∷ jet.Low ∷ []) }
    ensures packed { packed_before rows.new result ≡ packed_before rows.old at }
{
    let at = families::left_pad_high(rows, at);
    let at = families::left_pad_low(rows, at);
    let at = families::left_rotate(rows, at);
    let at = families::left_shift(rows, at);
    let at = families::left_shift_with(rows, at);
    let at = families::leftmost(rows, at);
    families::low(rows, at)
}

/// From `lt` to `multiply`.
fn fifth(rows: &mut [JetRow], at: usize) -> usize
    requires { at + 29 ≤ length rows.old }
    ensures place { result ≡ at + 29 }
    ensures written { placed rows.new result ≡ placed rows.old at ++ flat_map family
        (jet.Lt ∷ jet.Maj ∷ jet.Max ∷ jet.Median ∷ jet.Min ∷ jet.Modulo ∷ jet.Multiply ∷ []) }
    ensures packed { packed_before rows.new result ≡ packed_before rows.old at }
{
    let at = families::lt(rows, at);
    let at = families::maj(rows, at);
    let at = families::max(rows, at);
    let at = families::median(rows, at);
    let at = families::min(rows, at);
    let at = families::modulo(rows, at);
    families::multiply(rows, at)
}

/// From `negate` to `right_shift`.
fn sixth(rows: &mut [JetRow], at: usize) -> usize
    requires { at + 47 ≤ length rows.old }
    ensures place { result ≡ at + 47 }
    ensures written { placed rows.new result ≡ placed rows.old at ++ flat_map family
        (jet.Negate ∷ jet.Or ∷ jet.RightExtend ∷ jet.RightPadHigh ∷ jet.RightPadLow ∷ jet.RightRotate
        ∷ jet.RightShift ∷ []) }
    ensures packed { packed_before rows.new result ≡ packed_before rows.old at }
{
    let at = families::negate(rows, at);
    let at = families::or(rows, at);
    let at = families::right_extend(rows, at);
    let at = families::right_pad_high(rows, at);
    let at = families::right_pad_low(rows, at);
    let at = families::right_rotate(rows, at);
    families::right_shift(rows, at)
}

/// From `right_shift_with` to `xor_xor`.
fn seventh(rows: &mut [JetRow], at: usize) -> usize
    requires { at + 42 ≤ length rows.old }
    ensures place { result ≡ at + 42 }
    ensures written { placed rows.new result ≡ placed rows.old at ++ flat_map family
        (jet.RightShiftWith ∷ jet.Rightmost ∷ jet.Some ∷ jet.Subtract ∷ jet.Verify ∷ jet.Xor
        ∷ jet.XorXor ∷ []) }
    ensures packed { packed_before rows.new result ≡ packed_before rows.old at }
{
    let at = families::right_shift_with(rows, at);
    let at = families::rightmost(rows, at);
    let at = families::some(rows, at);
    let at = families::subtract(rows, at);
    let at = families::verify(rows, at);
    let at = families::xor(rows, at);
    families::xor_xor(rows, at)
}
