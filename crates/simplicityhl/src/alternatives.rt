/// The alternatives of an expression in the grammar, but that of parentheses.
#[derive(Clone, Copy, PartialEq, Eq, Debug)]
pub enum ExprAlternative {
    Block,
    Match,
    Array,
    List,
    Assert,
    Dbg,
    Panic,
    Jet,
    Witness,
    Param,
    Into,
    Unwrap,
    UnwrapLeft,
    UnwrapRight,
    IsNone,
    Fold,
    ArrayFold,
    ForWhile,
    Left,
    Right,
    Some,
    Nothing,
    True,
    False,
    Literal,
    Call,
    Name,
}

/// The alternatives of a type in the grammar, but that of parentheses.
#[derive(Clone, Copy, PartialEq, Eq, Debug)]
pub enum TypeAlternative {
    Array,
    List,
    Option,
    Either,
    Name,
}

/// The alternatives of a pattern in the grammar, but that of parentheses.
#[derive(Clone, Copy, PartialEq, Eq, Debug)]
pub enum PatternAlternative {
    Name,
    Ignore,
    Array,
}

/// The alternatives of the side of an arm in the grammar.
#[derive(Clone, Copy, PartialEq, Eq, Debug)]
pub enum SideAlternative {
    Left,
    Right,
    Some,
    Nothing,
    True,
    False,
}
