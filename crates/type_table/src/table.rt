//! Core types by number, each once, with cells and weight.

ghost use Rattle.std.specs.Prelude.{◌≡◌, ℕ, ◌+◌, ◌-◌, ◌^◌, ◌<◌, min, [], length, IfOk};
ghost use Rattle.simplicity.specs.Limits.{capped};
ghost use Rattle.simplicity.specs.Types.{One, Sum, Product, size, weight};
ghost use Rattle.simplicity.specs.Widths.{IsWidth, word_of_width};
ghost use Rattle.type_table.specs.Kinds.{Means, kind_at, kind_in, IsGrown, IsDistinct, AreBelow, HasShape};
ghost use Rattle.type_table.specs.Rows.{IsRow};

use crate::shape::{Shape, TypeId};
use indexmap::IndexMap;
use std::alloc::{AllocError, Global};
use std::marker::Model;

/// The greatest weight that a type of a program may have: the nodes of its tree (L5).
pub const MOST_WEIGHT: u64 = 4_194_304;

/// How many cells a value of a type takes and how many nodes the type's tree has.
/// Both numbers are 2^64 - 1 where they would be more.
#[derive(Clone, Copy)]
pub(crate) struct Measures {
    pub size: u64,
    pub weight: u64,
}

/// Core types by number. Two ids are equal exactly where they mean one type, and an id means the same
/// after every call, also after one that ran out of memory, when the table may have gained types.
#[derive(Drop)]
pub struct TypeTable {
    // The shape of each type, by its id, with its measures. A shape's id is found by its hash.
    rows: IndexMap<Shape, Measures>,
}

impl Model for TypeTable {
    ghost use Rattle.std.specs.Prelude.{List};
    ghost use Rattle.simplicity.specs.Types.{Kind};
    ghost use Rattle.type_table.specs.Code.{coded_kinds};

    ghost Value = { List Kind };

    ghost coded = { coded_kinds };

    ghost use Rattle.type_table.specs.Rows.{kinds_of, IsTable};

    ghost view = { λ table. kinds_of table.rows.entries };

    ghost invariant = { λ table. IsTable table.rows.entries };
}

impl TypeTable {
    /// The empty table. It takes no memory.
    pub fn new(alloc: Global) -> TypeTable
        ensures { result ≡ [] }
    {
        TypeTable {
            rows: IndexMap::new(alloc),
        }
    }

    /// The type of one value.
    pub fn unit(&mut self) -> Result<TypeId, AllocError>
        ensures ok { IfOk result (λ id. Means self.new id One) }
        ensures grown { IsGrown self.old self.new }
        ensures distinct { IsDistinct self.new }
    {
        self.id_of(Shape::One)
    }

    /// The type of the values of either of two types.
    pub fn sum(&mut self, left: TypeId, right: TypeId) -> Result<TypeId, AllocError>
        requires left { left < length self.old }
        requires right { right < length self.old }
        ensures ok { IfOk result (λ id.
            Means self.new id (Sum (kind_at self.old left) (kind_at self.old right))) }
        ensures grown { IsGrown self.old self.new }
        ensures distinct { IsDistinct self.new }
    {
        self.id_of(Shape::Sum(left, right))
    }

    /// The type of the pairs of values of two types.
    pub fn product(&mut self, left: TypeId, right: TypeId) -> Result<TypeId, AllocError>
        requires left { left < length self.old }
        requires right { right < length self.old }
        ensures ok { IfOk result (λ id.
            Means self.new id (Product (kind_at self.old left) (kind_at self.old right))) }
        ensures grown { IsGrown self.old self.new }
        ensures distinct { IsDistinct self.new }
    {
        self.id_of(Shape::Product(left, right))
    }

    /// The type of the words of so many bits, which is 1, 2, 4, up to 256.
    pub fn word(&mut self, width: u16) -> Result<TypeId, AllocError>
        requires { IsWidth width }
        ensures ok { IfOk result (λ id. Means self.new id (word_of_width width)) }
        ensures grown { IsGrown self.old self.new }
        ensures distinct { IsDistinct self.new }
    {
        let unit = self.unit()?;
        let mut id = self.sum(unit, unit)?;
        for _level in 0..width.ilog2() {
            id = self.product(id, id)?;
        }
        Ok(id)
    }

    /// What a type is made of.
    pub fn shape(&self, id: TypeId) -> Shape
        requires { id < length self.now }
        ensures shape { HasShape self.now id result }
        ensures distinct { IsDistinct self.now }
    {
        *self.row(id).0
    }

    /// How many cells a value of the type takes; 2^64 - 1 where it would be more.
    pub fn size(&self, id: TypeId) -> u64
        requires { id < length self.now }
        ensures { result ≡ capped (size (kind_at self.now id)) }
    {
        self.row(id).1.size
    }

    /// How many nodes the tree of the type has; 2^64 - 1 where it would have more.
    pub fn weight(&self, id: TypeId) -> u64
        requires { id < length self.now }
        ensures { result ≡ capped (weight (kind_at self.now id)) }
    {
        self.row(id).1.weight
    }

    /// The row of an id.
    fn row(&self, id: TypeId) -> (&Shape, &Measures)
        requires { id < length self.now }
        ensures row { IsRow self.now id (result.0.now, result.1.now) }
        ensures distinct { IsDistinct self.now }
    {
        match self.rows.get_index(id) {
            Some(row) => row,
            None => unreachable!(),
        }
    }

    /// The id of a shape, which is added where it isn't there yet.
    fn id_of(&mut self, shape: Shape) -> Result<TypeId, AllocError>
        requires { AreBelow (length self.old) shape }
        ensures ok { IfOk result (λ id. Means self.new id (kind_in self.old shape)) }
        ensures grown { IsGrown self.old self.new }
        ensures distinct { IsDistinct self.new }
    {
        match self.rows.get_index_of(&shape) {
            Some(id) => Ok(id),
            None => {
                let measures = self.measures_of(shape);
                let id = self.rows.len();
                self.rows.insert(shape, measures)?;
                Ok(id)
            }
        }
    }

    /// The measures of a shape's type, from those of its parts.
    fn measures_of(&self, shape: Shape) -> Measures
        requires { AreBelow (length self.now) shape }
        ensures size { result.size ≡ capped (size (kind_in self.now shape)) }
        ensures weight { result.weight ≡ capped (weight (kind_in self.now shape)) }
    {
        match shape {
            Shape::One => Measures { size: 0, weight: 1 },
            Shape::Sum(left, right) => Measures {
                size: self.size(left).max(self.size(right)).saturating_add(1),
                weight: both_and_one(self.weight(left), self.weight(right)),
            },
            Shape::Product(left, right) => Measures {
                size: self.size(left).saturating_add(self.size(right)),
                weight: both_and_one(self.weight(left), self.weight(right)),
            },
        }
    }
}

/// The weight of a type of two parts.
fn both_and_one(left: u64, right: u64) -> u64
    ensures { result ≡ min (left + right + 1) (2 ^ 64 - 1) }
{
    left.saturating_add(right).saturating_add(1)
}
