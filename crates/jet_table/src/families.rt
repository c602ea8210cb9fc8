//! The rows, a family at a time: the jets whose names differ in their widths alone.

ghost use Rattle.std.specs.Prelude.{◌≡◌, ◌+◌, ◌≤◌, ◌&&◌, ◌++◌, length, take};
ghost use Rattle.jets.specs.Jet as jet;
ghost use Rattle.jets.specs.Jet.{family};
ghost use Rattle.jet_table.specs.Rows.{are_packed, packed_before, placed, rows_of};

use crate::row::{JetKind, JetRow};
use word_math::Op;

/// Writes rows from a place on.
fn write(rows: &mut [JetRow], at: usize, family: &[JetRow]) -> usize
    requires { at + length family.now ≤ length rows.old }
    ensures place { result ≡ at + length family.now }
    ensures written { take result rows.new ≡ take at rows.old ++ family.now }
{
    let end = at + family.len();
    rows[at..end].copy_from_slice(family);
    end
}

/// Writes the rows of a family from a place on, and gives the place after them.
fn put(rows: &mut [JetRow], at: usize, family: &[JetRow]) -> usize
    requires { at + length family.now ≤ length rows.old }
    ensures place { result ≡ at + length family.now }
    ensures written { placed rows.new result ≡ placed rows.old at ++ rows_of family.now }
    ensures packed { packed_before rows.new result ≡ (are_packed family.now && packed_before rows.old at) }
{
    write(rows, at, family)
}

macro_rules! width {
    (N $narrow:tt $wide:tt) => { $narrow };
    (W $narrow:tt $wide:tt) => { $wide };
    (D $narrow:tt $wide:tt) => { 2 * $narrow };
    (S 8 $wide:tt) => { 4 };
    (S 16 $wide:tt) => { 4 };
    (S 32 $wide:tt) => { 8 };
    (S 64 $wide:tt) => { 8 };
}

// A type: T a truth value, N and W numbers of the lesser and of the greater width, D of twice the width, S a shift's amount.
macro_rules! kind {
    (T $narrow:tt $wide:tt) => { Some(JetKind::Bool) };
    ($letter:tt $narrow:tt $wide:tt) => { Some(JetKind::UInt(width!($letter $narrow $wide))) };
}

macro_rules! arguments {
    ($n:tt $w:tt;) => { [None, None, None, None] };
    ($n:tt $w:tt; $a:tt) => { [kind!($a $n $w), None, None, None] };
    ($n:tt $w:tt; $a:tt $b:tt) => { [kind!($a $n $w), kind!($b $n $w), None, None] };
    ($n:tt $w:tt; $a:tt $b:tt $c:tt) => { [kind!($a $n $w), kind!($b $n $w), kind!($c $n $w), None] };
    ($n:tt $w:tt; $a:tt $b:tt $c:tt $d:tt) => { [kind!($a $n $w), kind!($b $n $w), kind!($c $n $w), kind!($d $n $w)] };
}

macro_rules! results {
    ($n:tt $w:tt;) => { [None, None] };
    ($n:tt $w:tt; $a:tt) => { [kind!($a $n $w), None] };
    ($n:tt $w:tt; $a:tt $b:tt) => { [kind!($a $n $w), kind!($b $n $w)] };
}

macro_rules! row {
    ($name:expr, $op:ident, $n:tt $w:tt, $arguments:tt -> $results:tt) => {
        JetRow {
            name: $name,
            op: Op::$op,
            narrow: $n,
            wide: $w,
            arguments: listed!(arguments $n $w $arguments),
            results: listed!(results $n $w $results),
        }
    };
}

macro_rules! listed {
    ($list:ident $n:tt $w:tt ($($letter:tt)*)) => { $list!($n $w; $($letter)*) };
}

// A family of one width in each name.
macro_rules! family {
    ($op:ident, $stem:literal, $arguments:tt -> $results:tt, [$($n:tt)*]) => {
        [$(row!(concat!($stem, "_", $n), $op, $n $n, $arguments -> $results)),*]
    };
}

// A family that narrows, with the greater width before the lesser in each name.
macro_rules! narrowing {
    ($op:ident, $stem:literal, $arguments:tt -> $results:tt, [$($w:tt $n:tt),*]) => {
        [$(row!(concat!($stem, "_", $w, "_", $n), $op, $n $w, $arguments -> $results)),*]
    };
}

// A family that widens, with the lesser width before the greater in each name.
macro_rules! widening {
    ($op:ident, $stem:literal, $arguments:tt -> $results:tt, [$($n:tt $w:tt),*]) => {
        [$(row!(concat!($stem, "_", $n, "_", $w), $op, $n $w, $arguments -> $results)),*]
    };
}

pub(crate) fn add(rows: &mut [JetRow], at: usize) -> usize
    requires { at + 4 ≤ length rows.old }
    ensures place { result ≡ at + 4 }
    ensures written { placed rows.new result ≡ placed rows.old at ++ family jet.Add }
    ensures packed { packed_before rows.new result ≡ packed_before rows.old at }
{
    static ROWS: [JetRow; 4] = family!(Add, "add", (N N) -> (T N), [16 32 64 8]);
    put(rows, at, &ROWS)
}

pub(crate) fn all(rows: &mut [JetRow], at: usize) -> usize
    requires { at + 4 ≤ length rows.old }
    ensures place { result ≡ at + 4 }
    ensures written { placed rows.new result ≡ placed rows.old at ++ family jet.All }
    ensures packed { packed_before rows.new result ≡ packed_before rows.old at }
{
    static ROWS: [JetRow; 4] = family!(All, "all", (N) -> (T), [16 32 64 8]);
    put(rows, at, &ROWS)
}

pub(crate) fn and(rows: &mut [JetRow], at: usize) -> usize
    requires { at + 5 ≤ length rows.old }
    ensures place { result ≡ at + 5 }
    ensures written { placed rows.new result ≡ placed rows.old at ++ family jet.And }
    ensures packed { packed_before rows.new result ≡ packed_before rows.old at }
{
    static ROWS: [JetRow; 5] = family!(And, "and", (N N) -> (N), [1 16 32 64 8]);
    put(rows, at, &ROWS)
}

pub(crate) fn ch(rows: &mut [JetRow], at: usize) -> usize
    requires { at + 5 ≤ length rows.old }
    ensures place { result ≡ at + 5 }
    ensures written { placed rows.new result ≡ placed rows.old at ++ family jet.Ch }
    ensures packed { packed_before rows.new result ≡ packed_before rows.old at }
{
    static ROWS: [JetRow; 5] = family!(Ch, "ch", (N N N) -> (N), [1 16 32 64 8]);
    put(rows, at, &ROWS)
}

pub(crate) fn complement(rows: &mut [JetRow], at: usize) -> usize
    requires { at + 5 ≤ length rows.old }
    ensures place { result ≡ at + 5 }
    ensures written { placed rows.new result ≡ placed rows.old at ++ family jet.Complement }
    ensures packed { packed_before rows.new result ≡ packed_before rows.old at }
{
    static ROWS: [JetRow; 5] = family!(Complement, "complement", (N) -> (N), [1 16 32 64 8]);
    put(rows, at, &ROWS)
}

pub(crate) fn decrement(rows: &mut [JetRow], at: usize) -> usize
    requires { at + 4 ≤ length rows.old }
    ensures place { result ≡ at + 4 }
    ensures written { placed rows.new result ≡ placed rows.old at ++ family jet.Decrement }
    ensures packed { packed_before rows.new result ≡ packed_before rows.old at }
{
    static ROWS: [JetRow; 4] = family!(Decrement, "decrement", (N) -> (T N), [16 32 64 8]);
    put(rows, at, &ROWS)
}

pub(crate) fn div_mod(rows: &mut [JetRow], at: usize) -> usize
    requires { at + 4 ≤ length rows.old }
    ensures place { result ≡ at + 4 }
    ensures written { placed rows.new result ≡ placed rows.old at ++ family jet.DivMod }
    ensures packed { packed_before rows.new result ≡ packed_before rows.old at }
{
    static ROWS: [JetRow; 4] = family!(DivMod, "div_mod", (N N) -> (N N), [16 32 64 8]);
    put(rows, at, &ROWS)
}

pub(crate) fn divide(rows: &mut [JetRow], at: usize) -> usize
    requires { at + 4 ≤ length rows.old }
    ensures place { result ≡ at + 4 }
    ensures written { placed rows.new result ≡ placed rows.old at ++ family jet.Divide }
    ensures packed { packed_before rows.new result ≡ packed_before rows.old at }
{
    static ROWS: [JetRow; 4] = family!(Divide, "divide", (N N) -> (N), [16 32 64 8]);
    put(rows, at, &ROWS)
}

pub(crate) fn divides(rows: &mut [JetRow], at: usize) -> usize
    requires { at + 4 ≤ length rows.old }
    ensures place { result ≡ at + 4 }
    ensures written { placed rows.new result ≡ placed rows.old at ++ family jet.Divides }
    ensures packed { packed_before rows.new result ≡ packed_before rows.old at }
{
    static ROWS: [JetRow; 4] = family!(Divides, "divides", (N N) -> (T), [16 32 64 8]);
    put(rows, at, &ROWS)
}

pub(crate) fn eq(rows: &mut [JetRow], at: usize) -> usize
    requires { at + 6 ≤ length rows.old }
    ensures place { result ≡ at + 6 }
    ensures written { placed rows.new result ≡ placed rows.old at ++ family jet.Eq }
    ensures packed { packed_before rows.new result ≡ packed_before rows.old at }
{
    static ROWS: [JetRow; 6] = family!(Eq, "eq", (N N) -> (T), [1 16 256 32 64 8]);
    put(rows, at, &ROWS)
}

pub(crate) fn full_add(rows: &mut [JetRow], at: usize) -> usize
    requires { at + 4 ≤ length rows.old }
    ensures place { result ≡ at + 4 }
    ensures written { placed rows.new result ≡ placed rows.old at ++ family jet.FullAdd }
    ensures packed { packed_before rows.new result ≡ packed_before rows.old at }
{
    static ROWS: [JetRow; 4] = family!(FullAdd, "full_add", (T N N) -> (T N), [16 32 64 8]);
    put(rows, at, &ROWS)
}

pub(crate) fn full_decrement(rows: &mut [JetRow], at: usize) -> usize
    requires { at + 4 ≤ length rows.old }
    ensures place { result ≡ at + 4 }
    ensures written { placed rows.new result ≡ placed rows.old at ++ family jet.FullDecrement }
    ensures packed { packed_before rows.new result ≡ packed_before rows.old at }
{
    static ROWS: [JetRow; 4] =
        family!(FullDecrement, "full_decrement", (T N) -> (T N), [16 32 64 8]);
    put(rows, at, &ROWS)
}

pub(crate) fn full_increment(rows: &mut [JetRow], at: usize) -> usize
    requires { at + 4 ≤ length rows.old }
    ensures place { result ≡ at + 4 }
    ensures written { placed rows.new result ≡ placed rows.old at ++ family jet.FullIncrement }
    ensures packed { packed_before rows.new result ≡ packed_before rows.old at }
{
    static ROWS: [JetRow; 4] =
        family!(FullIncrement, "full_increment", (T N) -> (T N), [16 32 64 8]);
    put(rows, at, &ROWS)
}

pub(crate) fn full_multiply(rows: &mut [JetRow], at: usize) -> usize
    requires { at + 4 ≤ length rows.old }
    ensures place { result ≡ at + 4 }
    ensures written { placed rows.new result ≡ placed rows.old at ++ family jet.FullMultiply }
    ensures packed { packed_before rows.new result ≡ packed_before rows.old at }
{
    static ROWS: [JetRow; 4] =
        family!(FullMultiply, "full_multiply", (N N N N) -> (D), [16 32 64 8]);
    put(rows, at, &ROWS)
}

pub(crate) fn full_subtract(rows: &mut [JetRow], at: usize) -> usize
    requires { at + 4 ≤ length rows.old }
    ensures place { result ≡ at + 4 }
    ensures written { placed rows.new result ≡ placed rows.old at ++ family jet.FullSubtract }
    ensures packed { packed_before rows.new result ≡ packed_before rows.old at }
{
    static ROWS: [JetRow; 4] =
        family!(FullSubtract, "full_subtract", (T N N) -> (T N), [16 32 64 8]);
    put(rows, at, &ROWS)
}

pub(crate) fn high(rows: &mut [JetRow], at: usize) -> usize
    requires { at + 5 ≤ length rows.old }
    ensures place { result ≡ at + 5 }
    ensures written { placed rows.new result ≡ placed rows.old at ++ family jet.High }
    ensures packed { packed_before rows.new result ≡ packed_before rows.old at }
{
    static ROWS: [JetRow; 5] = family!(High, "high", () -> (N), [1 16 32 64 8]);
    put(rows, at, &ROWS)
}

pub(crate) fn increment(rows: &mut [JetRow], at: usize) -> usize
    requires { at + 4 ≤ length rows.old }
    ensures place { result ≡ at + 4 }
    ensures written { placed rows.new result ≡ placed rows.old at ++ family jet.Increment }
    ensures packed { packed_before rows.new result ≡ packed_before rows.old at }
{
    static ROWS: [JetRow; 4] = family!(Increment, "increment", (N) -> (T N), [16 32 64 8]);
    put(rows, at, &ROWS)
}

pub(crate) fn is_one(rows: &mut [JetRow], at: usize) -> usize
    requires { at + 4 ≤ length rows.old }
    ensures place { result ≡ at + 4 }
    ensures written { placed rows.new result ≡ placed rows.old at ++ family jet.IsOne }
    ensures packed { packed_before rows.new result ≡ packed_before rows.old at }
{
    static ROWS: [JetRow; 4] = family!(IsOne, "is_one", (N) -> (T), [16 32 64 8]);
    put(rows, at, &ROWS)
}

pub(crate) fn is_zero(rows: &mut [JetRow], at: usize) -> usize
    requires { at + 4 ≤ length rows.old }
    ensures place { result ≡ at + 4 }
    ensures written { placed rows.new result ≡ placed rows.old at ++ family jet.IsZero }
    ensures packed { packed_before rows.new result ≡ packed_before rows.old at }
{
    static ROWS: [JetRow; 4] = family!(IsZero, "is_zero", (N) -> (T), [16 32 64 8]);
    put(rows, at, &ROWS)
}

pub(crate) fn le(rows: &mut [JetRow], at: usize) -> usize
    requires { at + 4 ≤ length rows.old }
    ensures place { result ≡ at + 4 }
    ensures written { placed rows.new result ≡ placed rows.old at ++ family jet.Le }
    ensures packed { packed_before rows.new result ≡ packed_before rows.old at }
{
    static ROWS: [JetRow; 4] = family!(Le, "le", (N N) -> (T), [16 32 64 8]);
    put(rows, at, &ROWS)
}

pub(crate) fn left_extend(rows: &mut [JetRow], at: usize) -> usize
    requires { at + 10 ≤ length rows.old }
    ensures place { result ≡ at + 10 }
    ensures written { placed rows.new result ≡ placed rows.old at ++ family jet.LeftExtend }
    ensures packed { packed_before rows.new result ≡ packed_before rows.old at }
{
    static ROWS: [JetRow; 10] =
        widening!(LeftExtend, "left_extend", (N) -> (W), [16 32, 16 64, 1 16, 1 32, 1 64, 1 8, 32 64, 8 16, 8 32, 8 64]);
    put(rows, at, &ROWS)
}

pub(crate) fn left_pad_high(rows: &mut [JetRow], at: usize) -> usize
    requires { at + 10 ≤ length rows.old }
    ensures place { result ≡ at + 10 }
    ensures written { placed rows.new result ≡ placed rows.old at ++ family jet.LeftPadHigh }
    ensures packed { packed_before rows.new result ≡ packed_before rows.old at }
{
    static ROWS: [JetRow; 10] =
        widening!(LeftPadHigh, "left_pad_high", (N) -> (W), [16 32, 16 64, 1 16, 1 32, 1 64, 1 8, 32 64, 8 16, 8 32, 8 64]);
    put(rows, at, &ROWS)
}

pub(crate) fn left_pad_low(rows: &mut [JetRow], at: usize) -> usize
    requires { at + 10 ≤ length rows.old }
    ensures place { result ≡ at + 10 }
    ensures written { placed rows.new result ≡ placed rows.old at ++ family jet.LeftPadLow }
    ensures packed { packed_before rows.new result ≡ packed_before rows.old at }
{
    static ROWS: [JetRow; 10] =
        widening!(LeftPadLow, "left_pad_low", (N) -> (W), [16 32, 16 64, 1 16, 1 32, 1 64, 1 8, 32 64, 8 16, 8 32, 8 64]);
    put(rows, at, &ROWS)
}

pub(crate) fn left_rotate(rows: &mut [JetRow], at: usize) -> usize
    requires { at + 4 ≤ length rows.old }
    ensures place { result ≡ at + 4 }
    ensures written { placed rows.new result ≡ placed rows.old at ++ family jet.LeftRotate }
    ensures packed { packed_before rows.new result ≡ packed_before rows.old at }
{
    static ROWS: [JetRow; 4] = family!(LeftRotate, "left_rotate", (S N) -> (N), [16 32 64 8]);
    put(rows, at, &ROWS)
}

pub(crate) fn left_shift(rows: &mut [JetRow], at: usize) -> usize
    requires { at + 4 ≤ length rows.old }
    ensures place { result ≡ at + 4 }
    ensures written { placed rows.new result ≡ placed rows.old at ++ family jet.LeftShift }
    ensures packed { packed_before rows.new result ≡ packed_before rows.old at }
{
    static ROWS: [JetRow; 4] = family!(LeftShift, "left_shift", (S N) -> (N), [16 32 64 8]);
    put(rows, at, &ROWS)
}

pub(crate) fn left_shift_with(rows: &mut [JetRow], at: usize) -> usize
    requires { at + 4 ≤ length rows.old }
    ensures place { result ≡ at + 4 }
    ensures written { placed rows.new result ≡ placed rows.old at ++ family jet.LeftShiftWith }
    ensures packed { packed_before rows.new result ≡ packed_before rows.old at }
{
    static ROWS: [JetRow; 4] =
        family!(LeftShiftWith, "left_shift_with", (T S N) -> (N), [16 32 64 8]);
    put(rows, at, &ROWS)
}

pub(crate) fn leftmost(rows: &mut [JetRow], at: usize) -> usize
    requires { at + 18 ≤ length rows.old }
    ensures place { result ≡ at + 18 }
    ensures written { placed rows.new result ≡ placed rows.old at ++ family jet.Leftmost }
    ensures packed { packed_before rows.new result ≡ packed_before rows.old at }
{
    static ROWS: [JetRow; 18] =
        narrowing!(Leftmost, "leftmost", (W) -> (N), [16 1, 16 2, 16 4, 16 8, 32 1, 32 16, 32 2, 32 4, 32 8, 64 1, 64 16, 64 2, 64 32, 64 4, 64 8, 8 1, 8 2, 8 4]);
    put(rows, at, &ROWS)
}

pub(crate) fn low(rows: &mut [JetRow], at: usize) -> usize
    requires { at + 5 ≤ length rows.old }
    ensures place { result ≡ at + 5 }
    ensures written { placed rows.new result ≡ placed rows.old at ++ family jet.Low }
    ensures packed { packed_before rows.new result ≡ packed_before rows.old at }
{
    static ROWS: [JetRow; 5] = family!(Low, "low", () -> (N), [1 16 32 64 8]);
    put(rows, at, &ROWS)
}

pub(crate) fn lt(rows: &mut [JetRow], at: usize) -> usize
    requires { at + 4 ≤ length rows.old }
    ensures place { result ≡ at + 4 }
    ensures written { placed rows.new result ≡ placed rows.old at ++ family jet.Lt }
    ensures packed { packed_before rows.new result ≡ packed_before rows.old at }
{
    static ROWS: [JetRow; 4] = family!(Lt, "lt", (N N) -> (T), [16 32 64 8]);
    put(rows, at, &ROWS)
}

pub(crate) fn maj(rows: &mut [JetRow], at: usize) -> usize
    requires { at + 5 ≤ length rows.old }
    ensures place { result ≡ at + 5 }
    ensures written { placed rows.new result ≡ placed rows.old at ++ family jet.Maj }
    ensures packed { packed_before rows.new result ≡ packed_before rows.old at }
{
    static ROWS: [JetRow; 5] = family!(Maj, "maj", (N N N) -> (N), [1 16 32 64 8]);
    put(rows, at, &ROWS)
}

pub(crate) fn max(rows: &mut [JetRow], at: usize) -> usize
    requires { at + 4 ≤ length rows.old }
    ensures place { result ≡ at + 4 }
    ensures written { placed rows.new result ≡ placed rows.old at ++ family jet.Max }
    ensures packed { packed_before rows.new result ≡ packed_before rows.old at }
{
    static ROWS: [JetRow; 4] = family!(Max, "max", (N N) -> (N), [16 32 64 8]);
    put(rows, at, &ROWS)
}

pub(crate) fn median(rows: &mut [JetRow], at: usize) -> usize
    requires { at + 4 ≤ length rows.old }
    ensures place { result ≡ at + 4 }
    ensures written { placed rows.new result ≡ placed rows.old at ++ family jet.Median }
    ensures packed { packed_before rows.new result ≡ packed_before rows.old at }
{
    static ROWS: [JetRow; 4] = family!(Median, "median", (N N N) -> (N), [16 32 64 8]);
    put(rows, at, &ROWS)
}

pub(crate) fn min(rows: &mut [JetRow], at: usize) -> usize
    requires { at + 4 ≤ length rows.old }
    ensures place { result ≡ at + 4 }
    ensures written { placed rows.new result ≡ placed rows.old at ++ family jet.Min }
    ensures packed { packed_before rows.new result ≡ packed_before rows.old at }
{
    static ROWS: [JetRow; 4] = family!(Min, "min", (N N) -> (N), [16 32 64 8]);
    put(rows, at, &ROWS)
}

pub(crate) fn modulo(rows: &mut [JetRow], at: usize) -> usize
    requires { at + 4 ≤ length rows.old }
    ensures place { result ≡ at + 4 }
    ensures written { placed rows.new result ≡ placed rows.old at ++ family jet.Modulo }
    ensures packed { packed_before rows.new result ≡ packed_before rows.old at }
{
    static ROWS: [JetRow; 4] = family!(Modulo, "modulo", (N N) -> (N), [16 32 64 8]);
    put(rows, at, &ROWS)
}

pub(crate) fn multiply(rows: &mut [JetRow], at: usize) -> usize
    requires { at + 4 ≤ length rows.old }
    ensures place { result ≡ at + 4 }
    ensures written { placed rows.new result ≡ placed rows.old at ++ family jet.Multiply }
    ensures packed { packed_before rows.new result ≡ packed_before rows.old at }
{
    static ROWS: [JetRow; 4] = family!(Multiply, "multiply", (N N) -> (D), [16 32 64 8]);
    put(rows, at, &ROWS)
}

pub(crate) fn negate(rows: &mut [JetRow], at: usize) -> usize
    requires { at + 4 ≤ length rows.old }
    ensures place { result ≡ at + 4 }
    ensures written { placed rows.new result ≡ placed rows.old at ++ family jet.Negate }
    ensures packed { packed_before rows.new result ≡ packed_before rows.old at }
{
    static ROWS: [JetRow; 4] = family!(Negate, "negate", (N) -> (T N), [16 32 64 8]);
    put(rows, at, &ROWS)
}

pub(crate) fn or(rows: &mut [JetRow], at: usize) -> usize
    requires { at + 5 ≤ length rows.old }
    ensures place { result ≡ at + 5 }
    ensures written { placed rows.new result ≡ placed rows.old at ++ family jet.Or }
    ensures packed { packed_before rows.new result ≡ packed_before rows.old at }
{
    static ROWS: [JetRow; 5] = family!(Or, "or", (N N) -> (N), [1 16 32 64 8]);
    put(rows, at, &ROWS)
}

pub(crate) fn right_extend(rows: &mut [JetRow], at: usize) -> usize
    requires { at + 10 ≤ length rows.old }
    ensures place { result ≡ at + 10 }
    ensures written { placed rows.new result ≡ placed rows.old at ++ family jet.RightExtend }
    ensures packed { packed_before rows.new result ≡ packed_before rows.old at }
{
    static ROWS: [JetRow; 10] =
        widening!(RightExtend, "right_extend", (N) -> (W), [16 32, 16 64, 1 16, 1 32, 1 64, 1 8, 32 64, 8 16, 8 32, 8 64]);
    put(rows, at, &ROWS)
}

pub(crate) fn right_pad_high(rows: &mut [JetRow], at: usize) -> usize
    requires { at + 10 ≤ length rows.old }
    ensures place { result ≡ at + 10 }
    ensures written { placed rows.new result ≡ placed rows.old at ++ family jet.RightPadHigh }
    ensures packed { packed_before rows.new result ≡ packed_before rows.old at }
{
    static ROWS: [JetRow; 10] =
        widening!(RightPadHigh, "right_pad_high", (N) -> (W), [16 32, 16 64, 1 16, 1 32, 1 64, 1 8, 32 64, 8 16, 8 32, 8 64]);
    put(rows, at, &ROWS)
}

pub(crate) fn right_pad_low(rows: &mut [JetRow], at: usize) -> usize
    requires { at + 10 ≤ length rows.old }
    ensures place { result ≡ at + 10 }
    ensures written { placed rows.new result ≡ placed rows.old at ++ family jet.RightPadLow }
    ensures packed { packed_before rows.new result ≡ packed_before rows.old at }
{
    static ROWS: [JetRow; 10] =
        widening!(RightPadLow, "right_pad_low", (N) -> (W), [16 32, 16 64, 1 16, 1 32, 1 64, 1 8, 32 64, 8 16, 8 32, 8 64]);
    put(rows, at, &ROWS)
}

pub(crate) fn right_rotate(rows: &mut [JetRow], at: usize) -> usize
    requires { at + 4 ≤ length rows.old }
    ensures place { result ≡ at + 4 }
    ensures written { placed rows.new result ≡ placed rows.old at ++ family jet.RightRotate }
    ensures packed { packed_before rows.new result ≡ packed_before rows.old at }
{
    static ROWS: [JetRow; 4] = family!(RightRotate, "right_rotate", (S N) -> (N), [16 32 64 8]);
    put(rows, at, &ROWS)
}

pub(crate) fn right_shift(rows: &mut [JetRow], at: usize) -> usize
    requires { at + 4 ≤ length rows.old }
    ensures place { result ≡ at + 4 }
    ensures written { placed rows.new result ≡ placed rows.old at ++ family jet.RightShift }
    ensures packed { packed_before rows.new result ≡ packed_before rows.old at }
{
    static ROWS: [JetRow; 4] = family!(RightShift, "right_shift", (S N) -> (N), [16 32 64 8]);
    put(rows, at, &ROWS)
}

pub(crate) fn right_shift_with(rows: &mut [JetRow], at: usize) -> usize
    requires { at + 4 ≤ length rows.old }
    ensures place { result ≡ at + 4 }
    ensures written { placed rows.new result ≡ placed rows.old at ++ family jet.RightShiftWith }
    ensures packed { packed_before rows.new result ≡ packed_before rows.old at }
{
    static ROWS: [JetRow; 4] =
        family!(RightShiftWith, "right_shift_with", (T S N) -> (N), [16 32 64 8]);
    put(rows, at, &ROWS)
}

pub(crate) fn rightmost(rows: &mut [JetRow], at: usize) -> usize
    requires { at + 18 ≤ length rows.old }
    ensures place { result ≡ at + 18 }
    ensures written { placed rows.new result ≡ placed rows.old at ++ family jet.Rightmost }
    ensures packed { packed_before rows.new result ≡ packed_before rows.old at }
{
    static ROWS: [JetRow; 18] =
        narrowing!(Rightmost, "rightmost", (W) -> (N), [16 1, 16 2, 16 4, 16 8, 32 1, 32 16, 32 2, 32 4, 32 8, 64 1, 64 16, 64 2, 64 32, 64 4, 64 8, 8 1, 8 2, 8 4]);
    put(rows, at, &ROWS)
}

pub(crate) fn some(rows: &mut [JetRow], at: usize) -> usize
    requires { at + 5 ≤ length rows.old }
    ensures place { result ≡ at + 5 }
    ensures written { placed rows.new result ≡ placed rows.old at ++ family jet.Some }
    ensures packed { packed_before rows.new result ≡ packed_before rows.old at }
{
    static ROWS: [JetRow; 5] = family!(Some, "some", (N) -> (T), [1 16 32 64 8]);
    put(rows, at, &ROWS)
}

pub(crate) fn subtract(rows: &mut [JetRow], at: usize) -> usize
    requires { at + 4 ≤ length rows.old }
    ensures place { result ≡ at + 4 }
    ensures written { placed rows.new result ≡ placed rows.old at ++ family jet.Subtract }
    ensures packed { packed_before rows.new result ≡ packed_before rows.old at }
{
    static ROWS: [JetRow; 4] = family!(Subtract, "subtract", (N N) -> (T N), [16 32 64 8]);
    put(rows, at, &ROWS)
}

pub(crate) fn verify(rows: &mut [JetRow], at: usize) -> usize
    requires { at + 1 ≤ length rows.old }
    ensures place { result ≡ at + 1 }
    ensures written { placed rows.new result ≡ placed rows.old at ++ family jet.Verify }
    ensures packed { packed_before rows.new result ≡ packed_before rows.old at }
{
    static ROWS: [JetRow; 1] = [row!("verify", Verify, 1 1, (T) -> ())];
    put(rows, at, &ROWS)
}

pub(crate) fn xor(rows: &mut [JetRow], at: usize) -> usize
    requires { at + 5 ≤ length rows.old }
    ensures place { result ≡ at + 5 }
    ensures written { placed rows.new result ≡ placed rows.old at ++ family jet.Xor }
    ensures packed { packed_before rows.new result ≡ packed_before rows.old at }
{
    static ROWS: [JetRow; 5] = family!(Xor, "xor", (N N) -> (N), [1 16 32 64 8]);
    put(rows, at, &ROWS)
}

pub(crate) fn xor_xor(rows: &mut [JetRow], at: usize) -> usize
    requires { at + 5 ≤ length rows.old }
    ensures place { result ≡ at + 5 }
    ensures written { placed rows.new result ≡ placed rows.old at ++ family jet.XorXor }
    ensures packed { packed_before rows.new result ≡ packed_before rows.old at }
{
    static ROWS: [JetRow; 5] = family!(XorXor, "xor_xor", (N N N) -> (N), [1 16 32 64 8]);
    put(rows, at, &ROWS)
}
