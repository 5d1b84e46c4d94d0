//! A table of bytes.

ghost use Rattle.std.specs.Prelude.{◌≡◌, ◌<◌, slice_index};

pub(crate) struct Table<const N: usize> {
    pub(crate) values: [u8; N],
}

impl<const N: usize> Table<N> {
    pub(crate) fn at(&self, place: usize) -> u8
        requires { place < N }
        ensures { result ≡ slice_index self.now.values place }
    {
        self.values[place]
    }
}
