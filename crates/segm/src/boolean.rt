//! A count for each of two shapes, around the whole range of their numbers.
ghost use Rattle.std.specs.Prelude.{◌^◌, ◌<◌};
ghost use Rattle.std.specs.Int.Signed.{mag};

#[derive(Clone, Copy)]
pub struct ShapeCountBoolean {
    pub subj: i32,
    pub clip: i32,
    ghost subj_fits: { mag subj < 2 ^ 31 },
    ghost clip_fits: { mag clip < 2 ^ 31 },
}
