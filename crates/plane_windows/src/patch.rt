// A rectangle: of a plane, or of a window of one.
ghost use Rattle.std.specs.Prelude.{◌≡◌, ◌+◌, ◌≤◌};
ghost use Rattle.plane_windows.specs.Widened.{Widened};

#[derive(Clone, Copy)]
pub struct Patch {
    pub x: usize,
    pub y: usize,
    pub w: usize,
    pub h: usize,
}

impl Patch {
    // The same rectangle of a window, as one of the plane in which the window stands at x, y.
    pub fn moved(self, x: usize, y: usize) -> Patch
        requires { (x + self.x ≤ 65536) × (y + self.y ≤ 65536) }
        ensures { result ≡ record { x = x + self.x; y = y + self.y; w = self.w; h = self.h } }
    {
        Patch {
            x: x + self.x,
            y: y + self.y,
            w: self.w,
            h: self.h,
        }
    }

    // With so many rows above it and columns before it; one with no place in it stays as it is.
    pub fn widened(self, up: usize, left: usize) -> Patch
        requires { (left ≤ self.x) × (up ≤ self.y) × (self.x + self.w ≤ 65536) × (self.y + self.h ≤ 65536) }
        ensures { Widened self up left result }
    {
        if self.w == 0 {
            return self;
        }
        if self.h == 0 {
            return self;
        }
        Patch {
            x: self.x - left,
            y: self.y - up,
            w: self.w + left,
            h: self.h + up,
        }
    }
}
