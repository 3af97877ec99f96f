// The bytes of a context and the distance between its blocks.
ghost use Rattle.std.specs.Prelude.{length};
ghost use Rattle.context.specs.Place.{Spaced};

#[derive(Drop)]
pub struct Context<'a> {
    pub bytes: &'a mut [u8],
    pub spacing: usize,
    pub ghost spaced: { Spaced spacing (length bytes.now) },
}

impl<'a> Context<'a> {
    pub fn of(bytes: &'a mut [u8], spacing: usize) -> Context<'a>
        requires { Spaced spacing (length bytes.old) }
    {
        Context { bytes, spacing }
    }
}
