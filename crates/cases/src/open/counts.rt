ghost use Rattle.std.specs.Prelude.{◌≡◌};

use super::OpenCase;

impl OpenCase {
    // The number of points.
    pub fn points(&self) -> u32
        ensures { result ≡ self.now.points }
    {
        self.points
    }

    // How many statements are filed.
    pub fn filed(&self) -> usize
        ensures { result ≡ self.now.filed }
    {
        self.filed
    }
}
