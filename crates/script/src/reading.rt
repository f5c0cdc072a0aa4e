// From a line to its command.
ghost use Rattle.std.specs.Prelude.{◌≡◌, ℕ, ◌++◌, IfSome, Some, codes};
ghost use Rattle.script.specs.Spelling.{spelt, Valid, Says};

use crate::Command;
use crate::words::*;
use who::Who;

fn round(args: &str) -> Option<Command>
    ensures { (pages : ℕ) → Says pages (codes "round " ++ args.now) result }
{
    let rounds = small(args)?;
    Some(Command::Round { rounds })
}

fn write(args: &str, pages: u32) -> Option<Command>
    ensures { Says pages (codes "write " ++ args.now) result }
{
    let (page, rest) = lead(args)?;
    let word = number(rest)?;
    let page = u32::try_from(page).ok()?;
    (page < pages).then_some(Command::Write { page, word })
}

fn fall(args: &str) -> Option<Command>
    ensures { (pages : ℕ) → Says pages (codes "fall " ++ args.now) result }
{
    let (host, rest) = lead(args)?;
    let (ask, side) = lead(rest)?;
    let host = Who::try_from(u32::try_from(host).ok()?).ok()?;
    let ask = u32::try_from(ask).ok()?;
    let after = match side {
        "before" => false,
        "after" => true,
        _ => return None,
    };
    (ask > 0).then_some(Command::Fall { host, ask, after })
}

fn lose(args: &str) -> Option<Command>
    ensures { (pages : ℕ) → Says pages (codes "lose " ++ args.now) result }
{
    let letter = small(args)?;
    (letter > 0).then_some(Command::Lose { letter })
}

fn any(args: &str) -> Option<Command>
    ensures { (pages : ℕ) → Says pages (codes "any " ++ args.now) result }
{
    let (seed, rest) = lead(args)?;
    let rounds = small(rest)?;
    Some(Command::Any { seed, rounds })
}

fn command(text: &str, pages: u32) -> Option<Command>
    ensures { Says pages text.now result }
{
    match cut(text) {
        None => match text {
            "move" => Some(Command::Move),
            "again" => Some(Command::Again),
            "where" => Some(Command::Where),
            "anew" => Some(Command::Anew),
            _ => None,
        },
        Some((verb, args)) => match verb {
            "round" => round(args),
            "write" => write(args, pages),
            "fall" => fall(args),
            "lose" => lose(args),
            "any" => any(args),
            _ => None,
        },
    }
}

// The command that the line is, the whole of it, for a guest of so many pages.
#[tactic(auto, using(crate::proofs::Spellings::utf8_spelt))]
pub fn read(line: &[u8], pages: u32) -> Option<Command>
    ensures reads { (c : Command) → Valid pages c → line.now ≡ spelt c → result ≡ Some c }
    ensures only { IfSome result (λ c. Valid pages c × (line.now ≡ spelt c)) }
{
    command(std::str::from_utf8(line).ok()?, pages)
}
