//! Where a frame lies.
ghost use Rattle.std.specs.Prelude.{◌≡◌};
ghost use Rattle.run_actions.specs.Stack.Pool.{at_place};

/// A frame but for its leaves and allocas, which lie in the pool from these places on, up to those of the next newer frame.
#[derive(Clone, Copy, Debug, PartialEq, Eq)]
pub struct Mark {
    pub function: u32,
    pub block: u32,
    pub position: u32,
    pub to: u32,
    pub first: usize,
    pub allocas: usize,
}

/// Below the oldest frame: no frame of its own.
pub const BOTTOM: Mark = Mark {
    function: 0,
    block: 0,
    position: 0,
    to: 0,
    first: 0,
    allocas: 0,
};

/// The frame stands at another place of its function.
#[inline]
pub fn stand(mark: &mut Mark, block: u32, position: u32)
    ensures { mark.new ≡ at_place mark.old block position }
{
    mark.block = block;
    mark.position = position;
}
