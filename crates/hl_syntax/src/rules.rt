/// A rule of the source language that a text may break after it is read. The names are printed.
#[derive(Clone, Copy, PartialEq, Eq, Debug)]
pub enum Rule {
    /// A second function, or a second alias, has the name.
    K1,
    /// A type name is none of bool, the numbers' types and the aliases before.
    K2,
    /// No function before has the name.
    K3,
    /// No variable in scope has the name.
    K4,
    /// A name stands twice in one pattern, or in the parameters.
    K5,
    /// An expression or pattern doesn't have the expected type.
    K6,
    /// A literal is too large for its type.
    K7,
    /// A tuple or array has another count than its type.
    K8,
    /// A list has as many items as its bound, or more.
    K9,
    /// A list bound is no power of two from 2 up.
    K10,
    /// A call or jet has another number of arguments.
    K11,
    /// The forms of a conversion differ.
    K12,
    /// The sides of a match are not Left and Right, None and Some, or false and true, each once.
    K13,
    /// A loop's function has not the loop's shape.
    K14,
    /// The count of a fold is no power of two from 2 up.
    K15,
    /// A witness stands outside `main`.
    K16,
    /// In edition 1 a witness name stands a second time; in edition 2 it stands again where another
    /// type than at its first place is expected.
    K17,
    /// The arguments' file has no entry for a parameter of the program.
    K18,
    /// The entry's type is not the expected type.
    K19,
    /// No function has the name that was asked for.
    K20,
    /// `main` has parameters, or a result other than `()`.
    K21,
    /// No jet has the name.
    K22,
    /// The whole expression of a statement that is no `let` doesn't have the type `()`.
    K23,
    /// A reserved name is declared.
    K24,
}

/// A quantity with a greatest value that is allowed. The names are printed.
#[derive(Clone, Copy, PartialEq, Eq, Debug)]
pub enum Limit {
    /// Bytes of the source file: 262,144.
    L1,
    /// Nesting of expressions, types and patterns: 128.
    L2,
    /// A decimal literal: 2^128 - 1.
    L3,
    /// An array's length, a list's bound, a fold's count: 65,536.
    L4,
    /// Weight of a type, the nodes of its tree: 4,194,304.
    L5,
    /// Nodes of a program: 1,048,576.
    L6,
    /// A program's bound on work: 2^32.
    L7,
    /// A program's bound on cells: 2^26.
    L8,
    /// A program's bound on frames: 65,536.
    L9,
    /// Bytes of a data file: 1,048,576; of a bundle or a witness file: 134,217,728.
    L10,
}
