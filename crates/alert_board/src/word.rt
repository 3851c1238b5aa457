// A publication as one word: the number above four bits.
ghost use Rattle.std.specs.Prelude.{◌≡◌, ◌<◌, ◌^◌};
ghost use Rattle.alert_board.specs.Word.{bit_of, word_of};
ghost use Rattle.alert_board.specs.declared.flags.News.{News};

use crate::flags::{Alert, News};

// How many numbers there are, with 0.
const NUMBERS: u64 = 1 << 32;

fn bit(flag: bool) -> u64
    ensures { result ≡ bit_of flag }
{
    u64::from(flag)
}

pub(crate) fn pack(number: u32, flags: Alert) -> u64
    ensures { result ≡ word_of (record { number = number; flags = flags }) }
{
    16 * u64::from(number)
        + bit(flags.readable)
        + 2 * bit(flags.done)
        + 4 * bit(flags.closed)
        + 8 * bit(flags.reset)
}

pub(crate) fn unpack(word: u64) -> News
    ensures { (news : News) → news.number < 2 ^ 32 → word ≡ word_of news → result ≡ news }
{
    News {
        number: (word / 16 % NUMBERS) as u32,
        flags: Alert {
            readable: word % 2 == 1,
            done: word / 2 % 2 == 1,
            closed: word / 4 % 2 == 1,
            reset: word / 8 % 2 == 1,
        },
    }
}
