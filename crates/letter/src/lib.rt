// Letters between two hosts: 72 words each. Nothing is lost or added on the way into words and back.
#![tactic(auto)]

ghost use Rattle.std.specs.Prelude.{◌≡◌, ℕ};
ghost use Rattle.letter.specs.Words.{number, Names, letter_of, spelt};
ghost use Rattle.letter.specs.Laws.{ReadsWhatWasWritten, WritesWhatWasRead};

// Probe, Page and Commit come from the host that moves the guest away; Ack, Refuse and Taken from the one that gets it.
// A kind's number is the first word of its letters.
#[derive(Clone, Copy, Debug, PartialEq, Eq)]
pub enum Kind {
    Probe = 1,
    Page = 2,
    Commit = 3,
    Ack = 4,
    Refuse = 5,
    Taken = 6,
}

// A number that is no kind's.
#[derive(Clone, Copy, Debug, PartialEq, Eq)]
pub struct NoKind(pub u64);

impl TryFrom<u64> for Kind {
    type Error = NoKind;

    ghost try_from_gives = { Names };

    fn try_from(number: u64) -> Result<Kind, NoKind> {
        match number {
            1 => Ok(Kind::Probe),
            2 => Ok(Kind::Page),
            3 => Ok(Kind::Commit),
            4 => Ok(Kind::Ack),
            5 => Ok(Kind::Refuse),
            6 => Ok(Kind::Taken),
            _ => Err(NoKind(number)),
        }
    }
}

impl From<Kind> for u64 {
    ghost from_gives = { λ kind r. r ≡ number kind };

    fn from(kind: Kind) -> u64 {
        kind as u64
    }
}

// The place is a page's in the order of sending, and an acknowledgement's first place that is not put yet.
#[derive(Clone, Copy, Debug, PartialEq, Eq)]
pub struct Letter {
    pub kind: Kind,
    pub attempt: u64,
    pub place: u64,
    pub page: u32,
    pub words: [u64; 64],
}

impl Letter {
    // The letter as 72 words: kind, attempt, place, page, four noughts, the words.
    pub fn write(&self, into: &mut [u64; 72])
        ensures { into.new ≡ spelt self.now }
    {
        let kind = u64::from(self.kind);
        let page = u64::from(self.page);
        let (head, words) = into.split_at_mut(8);
        head.copy_from_slice(&[kind, self.attempt, self.place, page, 0, 0, 0, 0]);
        words.copy_from_slice(&self.words);
    }

    // The letter that these 72 words are. No letter: a wrong kind, a page number that does not fit 32 bits, anything in the
    // four noughts. All other words are one.
    #[tactic(auto, unfolding(crate::specs::Words::letter_of))]
    pub fn read(from: &[u64; 72]) -> Option<Letter>
        ensures { result ≡ letter_of from.now }
    {
        let kind = Kind::try_from(from[0]).ok()?;
        let page = u32::try_from(from[3]).ok()?;
        if from[4..8] != [0; 4] {
            return None;
        }
        let mut words = [0; 64];
        words.copy_from_slice(&from[8..]);
        Some(Letter {
            kind,
            attempt: from[1],
            place: from[2],
            page,
            words,
        })
    }
}

// Reading gives what was written, and what was read is written as the same words.
pub fn letters_are_one_to_one() -> u8
    ensures back { ReadsWhatWasWritten }
    ensures forth { WritesWhatWasRead }
{
    0
}

#[cfg(test)]
mod tests {
    use super::*;
    use std::test::Fail;

    #[test]
    fn layout(rt: HostRuntime) {
        let mut page = [7; 64];
        page[63] = 9;
        let letter = Letter {
            kind: Kind::Page,
            attempt: 11,
            place: 22,
            page: 33,
            words: page,
        };
        let mut words = [5u64; 72];
        letter.write(&mut words);
        let head: &[u64] = &[2, 11, 22, 33, 0, 0, 0, 0, 7, 7];
        assert_eq!(rt; &words[..10], head);
        assert_eq!(rt; words[71], 9);
    }

    #[test]
    fn other_words_are_no_letter(rt: HostRuntime) -> Result<(), Fail> {
        let mut words = [5u64; 72];
        words[..8].copy_from_slice(&[6, 11, 22, 0xffff_ffff, 0, 0, 0, 0]);
        let letter = Letter::read(&words).ok_or("no letter")?;
        assert_eq!(rt; letter.kind, Kind::Taken);
        words[7] = 1;
        assert!(rt;
            Letter::read(&words).is_none(),
            "the four words are not noughts"
        );
        words[7] = 0;
        words[3] = 0x1_0000_0000;
        assert!(rt;
            Letter::read(&words).is_none(),
            "the page number is too wide"
        );
        words[3] = 33;
        words[0] = 7;
        assert!(rt; Letter::read(&words).is_none(), "there is no kind 7");
        Ok(())
    }
}
