// How full a table is.
ghost use Rattle.std.specs.Prelude.{◌≡◌, min};
ghost use Rattle.random.specs.Density.{number_of};

// About one pair in four is allowed, one in two, or three in four.
#[derive(Clone, Copy, PartialEq, Eq, Debug)]
pub enum Density {
    Quarter,
    Half,
    ThreeQuarters,
}

// 0 stands for a quarter, 1 for a half, and any other number for three quarters.
impl From<usize> for Density {
    ghost from_gives = { λ number density. number_of density ≡ min number 2 };

    fn from(number: usize) -> Density {
        match number {
            0 => Density::Quarter,
            1 => Density::Half,
            _ => Density::ThreeQuarters,
        }
    }
}
