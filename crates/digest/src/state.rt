// The hash value, and in a round the working variables: eight words.
ghost use Rattle.std.specs.Prelude.{◌≡◌};
ghost use Rattle.digest.specs.Sha256.{bytes_of};

#[derive(Clone, Copy)]
pub struct State {
    pub a: u32,
    pub b: u32,
    pub c: u32,
    pub d: u32,
    pub e: u32,
    pub f: u32,
    pub g: u32,
    pub h: u32,
}

impl State {
    // The hash value before the first block.
    pub const INITIAL: State = State {
        a: 0x6a09e667,
        b: 0xbb67ae85,
        c: 0x3c6ef372,
        d: 0xa54ff53a,
        e: 0x510e527f,
        f: 0x9b05688c,
        g: 0x1f83d9ab,
        h: 0x5be0cd19,
    };

    // The digest that a hash value stands for.
    pub(crate) fn to_bytes(self) -> [u8; 32]
        ensures { result ≡ bytes_of self }
    {
        let words = [
            self.a.to_be_bytes(),
            self.b.to_be_bytes(),
            self.c.to_be_bytes(),
            self.d.to_be_bytes(),
            self.e.to_be_bytes(),
            self.f.to_be_bytes(),
            self.g.to_be_bytes(),
            self.h.to_be_bytes(),
        ];
        let mut out = [0; 32];
        out.copy_from_slice(words.as_flattened());
        out
    }
}
