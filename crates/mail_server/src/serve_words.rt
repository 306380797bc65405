//! The words of `serve`.

ghost use Rattle.std.specs.Prelude.{◌≡◌, ◌≤◌, ◌<◌, Option, Some, None, IfSome, map, string_bytes, length};
ghost use Rattle.std.specs.List.{list_all};
ghost use Rattle.std.specs.Char.{is_ascii_digit};
ghost use Rattle.std.specs.Option.{option_map};
ghost use Rattle.port_model.specs.Script.{is_number, number_up_to};
ghost use Rattle.mail_server.specs.Commands.{meaning};
ghost use Rattle.mail_server.specs.Words.{asked_by, asked_by_four, number_from_one, serve_with};
ghost use Rattle.mail_server.specs.ServeWords.{ports_asked};

use crate::serve_numbers::{ServePorts, ServeWords};
use crate::words::{Command, read_words};

/// How many rounds may be asked for.
const MOST_ROUNDS: u64 = 1_000_000_000_000;

/// The ports that words ask a server to listen on; none exactly where they are not those of `serve`.
///
/// It is for who makes the ports that `run` is handed: they are bound before the files are loaded.
pub fn serve_ports(words: &[String]) -> Option<ServePorts>
    ensures { result ≡ ports_asked (asked_by (map (λ word. string_bytes word) words.now)) }
{
    match read_words(words) {
        Some(Command::Serve(serve)) => Some(serve.ports),
        _ => None,
    }
}

/// Reads a word with three numbers.
pub(crate) fn read_four<'a>(
    word: &[u8],
    rounds: &[u8],
    imap: &[u8],
    lmtp: &[u8],
) -> Option<Command<'a>>
    ensures { option_map meaning result ≡ asked_by_four word.now rounds.now imap.now lmtp.now }
{
    if word == b"serve".as_slice() {
        read_numbers(rounds, imap, lmtp)
    } else {
        None
    }
}

/// Reads the three numbers.
fn read_numbers<'a>(rounds: &[u8], imap: &[u8], lmtp: &[u8]) -> Option<Command<'a>>
    ensures { option_map meaning result
        ≡ serve_with (number_from_one 1000000000000 rounds.now) (number_from_one 65535 imap.now) (number_from_one 65535 lmtp.now) }
{
    let rounds = number_from_one(MOST_ROUNDS, rounds)?;
    let imap = port_number(imap)?;
    let lmtp = port_number(lmtp)?;
    let ports = ServePorts { imap, lmtp };
    Some(Command::Serve(ServeWords { rounds, ports }))
}

/// Reads the number of a port.
fn port_number(digits: &[u8]) -> Option<u16>
    ensures { result ≡ number_from_one 65535 digits.now }
{
    let number = number_from_one(u64::from(u16::MAX), digits)?;
    Some(number as u16)
}

/// Reads a number that is one at least, and no more than the greatest.
fn number_from_one(most: u64, digits: &[u8]) -> Option<u64>
    requires { most ≤ 1_000_000_000_000 }
    ensures value { result ≡ number_from_one most digits.now }
    ensures within { IfSome result (λ number. (0 < number) × (number ≤ most)) }
{
    let number = number_up_to(most, digits)?;
    if number == 0 {
        return None;
    }
    Some(number)
}

/// Reads a decimal number without a leading zero.
fn number_up_to(most: u64, digits: &[u8]) -> Option<u64>
    requires { most ≤ 1_000_000_000_000 }
    ensures value { result ≡ number_up_to most digits.now }
    ensures within { IfSome result (λ number. number ≤ most) }
{
    if !is_decimal(digits) {
        return None;
    }
    let mut value: u64 = 0;
    for digit in digits {
        value = value * 10 + u64::from(*digit - b'0');
        if value > most {
            return None;
        }
    }
    Some(value)
}

/// Whether digits are a decimal number without a leading zero.
fn is_decimal(digits: &[u8]) -> bool
    ensures { result ≡ is_number digits.now }
{
    all_digits(digits) && (digits.len() == 1 || (digits.len() > 1 && digits[0] != b'0'))
}

fn all_digits(digits: &[u8]) -> bool
    ensures { result ≡ list_all is_ascii_digit digits.now }
{
    digits.iter().all(|c| c.is_ascii_digit())
}
