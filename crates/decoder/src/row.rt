// The places of the texels of a row, by a few small numbers.
ghost use Rattle.std.specs.Prelude.{◌≤◌};

// Texel i is at rel `start` and i times `scale` halves more, and its x is `first_x` and i times `x_step` more.
#[derive(Clone, Copy)]
pub(crate) struct Row {
    pub(crate) odd: bool,
    pub(crate) start: usize,
    pub(crate) scale: usize,
    pub(crate) first_x: usize,
    pub(crate) x_step: usize,
    pub(crate) ghost start_bound: { start ≤ 4190000 },
    pub(crate) ghost scale_bound: { scale ≤ 4 },
    pub(crate) ghost first_bound: { first_x ≤ 1 },
    pub(crate) ghost step_bound: { x_step ≤ 1 },
}
