// A page: a lent buffer, since memory is fixed, and how much of it is written.
ghost use Rattle.std.specs.Prelude.{◌≡◌};

// The next text goes to the place `at`. It may be any: behind the end there is no room.
#[derive(Drop)]
pub struct Page<'a> {
    pub out: &'a mut [u8],
    pub at: usize,
}

impl<'a> Page<'a> {
    // Nothing is written.
    pub fn new(out: &'a mut [u8]) -> Page<'a>
        ensures at { result.at ≡ 0 }
        ensures out_value { result.out.now ≡ out.old }
        ensures same_buffer { result.out.ghost_name ≡ out.entry.ghost_name }
    {
        Page { out, at: 0 }
    }
}
