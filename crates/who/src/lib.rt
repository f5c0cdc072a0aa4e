// Which of the two hosts.
#![tactic(auto)]

ghost use Rattle.std.specs.Prelude.{◌≡◌, ◌++◌, Some, codes, decimal};
ghost use Rattle.who.specs.Numbers.{numb, Names};

use std::fmt;

#[derive(Clone, Copy, Debug, PartialEq, Eq)]
pub enum Who {
    Zero,
    One,
}

// A number that is no host's: only 0 and 1 are.
#[derive(Clone, Copy, Debug, PartialEq, Eq)]
pub struct NoHost(pub u32);

impl TryFrom<u32> for Who {
    type Error = NoHost;

    ghost try_from_gives = { Names };

    fn try_from(number: u32) -> Result<Who, NoHost> {
        match number {
            0 => Ok(Who::Zero),
            1 => Ok(Who::One),
            _ => Err(NoHost(number)),
        }
    }
}

impl From<Who> for u32 {
    ghost from_gives = { λ who r. r ≡ numb who };

    fn from(who: Who) -> u32 {
        who as u32
    }
}

// A host is printed as its number.
impl fmt::Display for Who {
    ghost output = { λ who. Some (decimal (numb who)) };

    fn fmt<W: fmt::Write>(&self, f: &mut fmt::Formatter<W>) -> fmt::Result {
        write!(f, "{}", u32::from(*self))
    }
}

impl fmt::Display for NoHost {
    ghost output = { λ e. Some (codes "no host has the number " ++ decimal e.0) };

    fn fmt<W: fmt::Write>(&self, f: &mut fmt::Formatter<W>) -> fmt::Result {
        write!(f, "no host has the number {}", self.0)
    }
}

#[cfg(test)]
mod tests {
    use super::*;

    #[test]
    fn numbers(rt: HostRuntime) {
        assert_eq!(rt; Who::try_from(0), Ok(Who::Zero));
        assert_eq!(rt; Who::try_from(1), Ok(Who::One));
        assert_eq!(rt; Who::try_from(2), Err(NoHost(2)));
        assert_eq!(rt; u32::from(Who::One), 1);
    }
}
