ghost use Rattle.std.specs.Prelude.{◌≤◌};

/// No unit sits on more groups than the limit, which is 0 to 8.
#[derive(Clone, Copy, Debug)]
pub struct Tuner {
    pub(crate) limit: u8,
    ghost low: { limit ≤ 8 },
}
