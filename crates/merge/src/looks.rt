//! Looks at what was learned.
ghost use Rattle.std.specs.Prelude.{◌≡◌, ◌+◌, ◌-◌, ◌^◌, ◌<◌, ◌↔◌, min, length, None, IsNone, IfSome};
ghost use Rattle.range_map.specs.Entries.{value_at};
ghost use Rattle.merge.specs.Looked.{map_at, IsRunOf};

use mrp_types::Inst;

/// The longest run of equal values round an instance.
#[derive(Clone, Copy, Debug, PartialEq, Eq)]
pub struct Run {
    /// Whether the values are Skip.
    pub skip: bool,
    /// The first instance behind the run.
    pub end: Inst,
}

/// What was learned of each of some rings: a map for each, in the order of the rings. Looks at it are counted.
pub trait Runs {
    ghost use Rattle.std.specs.Prelude.{List, ℕ};
    ghost use Rattle.mrp_types.specs.declared.value.Value.{Value};

    /// The learned maps, of instances below the end of all of them.
    ghost maps: { Self → List (List (ℕ × Value)) };

    /// How many looks were taken; at the greatest number the count stays.
    ghost looks: { Self → ℕ };

    /// The run round an instance of the map at a position; `None` where this map doesn't hold the instance.
    fn look(&mut self, position: u8, i: Inst) -> Option<Run>
        requires { position < length (maps self.old) }
        ensures none { IsNone result ↔ (value_at i (map_at (maps self.old) position) ≡ None) }
        ensures run { IfSome result (λ run. IsRunOf (map_at (maps self.old) position) i run) }
        ensures maps { maps self.new ≡ maps self.old }
        ensures looks { looks self.new ≡ min (looks self.old + 1) (2 ^ 64 - 1) };
}
