//! Bounds as 64 bits hold them, and how those of a term are made of its children's.

ghost use Rattle.std.specs.Prelude.{◌≡◌};
ghost use Rattle.simplicity.specs.Bounds.{stated, leaf, above, both, either, through};
ghost use Rattle.cost_bound.specs.Numbers.{numbers, beside_frames};

/// The bounds of a term or of a whole run: its work, the cells and the frames that it has at once, and its depth,
/// the nodes that it has open at once. Each is 2^64 - 1 where it would be more.
#[derive(Clone, Copy, Debug, PartialEq, Eq)]
pub struct Bounds {
    pub work: u64,
    pub cells: u64,
    pub frames: u64,
    pub depth: u64,
}

impl Bounds {
    /// The bounds of a term without children, of this work.
    pub(crate) fn leaf(work: u64) -> Bounds
        ensures { numbers result ≡ stated (leaf work) }
    {
        Bounds {
            work,
            cells: 0,
            frames: 0,
            depth: 1,
        }
    }

    /// The bounds of a term over one child, of this work beside it.
    pub(crate) fn above(self, work: u64) -> Bounds
        ensures { numbers result ≡ stated (above work (numbers self)) }
    {
        Bounds {
            work: work.saturating_add(self.work),
            cells: self.cells,
            frames: self.frames,
            depth: self.depth.saturating_add(1),
        }
    }

    /// The bounds of a term that evaluates both children.
    pub(crate) fn both(self, other: Bounds) -> Bounds
        ensures { numbers result ≡ stated (both (numbers self) (numbers other)) }
    {
        Bounds {
            work: self.work.saturating_add(other.work),
            cells: self.cells.max(other.cells),
            frames: self.frames.max(other.frames),
            depth: self.depth.max(other.depth).saturating_add(1),
        }
    }

    /// The bounds of a term that evaluates one of two children.
    pub(crate) fn either(self, other: Bounds) -> Bounds
        ensures { numbers result ≡ stated (either (numbers self) (numbers other)) }
    {
        Bounds {
            work: self.work.max(other.work).saturating_add(3),
            cells: self.cells.max(other.cells),
            frames: self.frames.max(other.frames),
            depth: self.depth.max(other.depth).saturating_add(1),
        }
    }

    /// The bounds of a composition with so many cells between.
    pub(crate) fn through(self, other: Bounds, cells: u64) -> Bounds
        ensures { numbers result ≡ stated (through cells (numbers self) (numbers other)) }
    {
        Bounds {
            work: cells
                .saturating_add(3)
                .saturating_add(self.work)
                .saturating_add(other.work),
            cells: cells.saturating_add(self.cells.max(other.cells)),
            frames: self.frames.max(other.frames).saturating_add(1),
            depth: self.depth.max(other.depth).saturating_add(1),
        }
    }

    /// The bounds of a run, which has the frames of its input and of its result beside those of its root.
    pub(crate) fn with_frames(self, source: u64, target: u64) -> Bounds
        ensures { numbers result ≡ stated (beside_frames source target (numbers self)) }
    {
        Bounds {
            work: self.work,
            cells: source.saturating_add(target).saturating_add(self.cells),
            frames: self.frames.saturating_add(2),
            depth: self.depth,
        }
    }
}
