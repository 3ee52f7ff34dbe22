//! The command of a line.
ghost use Rattle.std.specs.Prelude.{◌≡◌, [], ◌∷◌, MatchOption};
ghost use Rattle.rart_lines.specs.Words.{words_of};
ghost use Rattle.rart_routes.specs.Command.{IsCommand, IsCommandOf, IsNetAndTarget, IsNotOne, IsNotTwo, IsOnlyAddr};
ghost use Rattle.rart_routes.specs.Command.{IsOnlyNet, IsRoute, verb_of};

use crate::net::{Net, parse_net};
use crate::stop::LineError;
use crate::target::{Target, parse_target};
use rart_cidr::ParseCidrError;
use rart_lines::next_word;
use std::net::IpAddr;

/// The name of a command.
#[derive(Clone, Copy)]
pub enum Verb {
    Add,
    Del,
    Get,
    Route,
    Covering,
    Within,
    List,
    Dump,
    Aggregate,
    Len,
}

/// The command of a line.
#[derive(Drop)]
pub enum Command {
    /// Does nothing: the line has no words, or is a comment.
    Nothing,
    /// Inserts a route, and prints the old target.
    Add(Net, Target),
    /// Inserts a route, and prints nothing.
    Load(Net, Target),
    /// Removes a route.
    Del(Net),
    /// Looks a route up.
    Get(Net),
    /// Finds the route with the longest network that contains an address.
    Route(IpAddr),
    /// Finds all routes that contain an address.
    Covering(IpAddr),
    /// Finds all routes inside a network.
    Within(Net),
    /// Finds all routes.
    List,
    /// Finds all routes, and prints them as lines that load them.
    Dump,
    /// Removes the routes that change no longest match, and counts them.
    Aggregate,
    /// Counts the routes.
    Len,
}

/// Returns the command that a line writes.
///
/// # Errors
///
/// What is wrong with the line.
pub fn parse_command(line: &[u8]) -> Result<Command, LineError>
    ensures { IsCommand (words_of line.now) result }
{
    let Some((first, operands)) = next_word(line) else {
        return Ok(Command::Nothing);
    };
    if first.starts_with(b"#".as_slice()) {
        return Ok(Command::Nothing);
    }
    match parse_verb(first) {
        Some(verb) => parse_operands(verb, operands),
        None => parse_route(line),
    }
}

fn parse_verb(name: &[u8]) -> Option<Verb>
    ensures { result ≡ verb_of name.now }
{
    if name == b"add".as_slice() {
        Some(Verb::Add)
    } else if name == b"del".as_slice() {
        Some(Verb::Del)
    } else if name == b"get".as_slice() {
        Some(Verb::Get)
    } else if name == b"route".as_slice() {
        Some(Verb::Route)
    } else if name == b"covering".as_slice() {
        Some(Verb::Covering)
    } else if name == b"within".as_slice() {
        Some(Verb::Within)
    } else if name == b"list".as_slice() {
        Some(Verb::List)
    } else if name == b"dump".as_slice() {
        Some(Verb::Dump)
    } else if name == b"aggregate".as_slice() {
        Some(Verb::Aggregate)
    } else if name == b"len".as_slice() {
        Some(Verb::Len)
    } else {
        None
    }
}

// Returns the command of this name with these operands.
fn parse_operands(verb: Verb, operands: &[u8]) -> Result<Command, LineError>
    ensures { IsCommandOf verb (words_of operands.now) result }
{
    match verb {
        Verb::Add => match net_and_target(operands) {
            Ok((net, target)) => Ok(Command::Add(net, target)),
            Err(error) => Err(error),
        },
        Verb::Del => match only_net(operands) {
            Ok(net) => Ok(Command::Del(net)),
            Err(error) => Err(error),
        },
        Verb::Get => match only_net(operands) {
            Ok(net) => Ok(Command::Get(net)),
            Err(error) => Err(error),
        },
        Verb::Route => match only_addr(operands) {
            Ok(addr) => Ok(Command::Route(addr)),
            Err(error) => Err(error),
        },
        Verb::Covering => match only_addr(operands) {
            Ok(addr) => Ok(Command::Covering(addr)),
            Err(error) => Err(error),
        },
        Verb::Within => match only_net(operands) {
            Ok(net) => Ok(Command::Within(net)),
            Err(error) => Err(error),
        },
        Verb::List => match next_word(operands) {
            None => Ok(Command::List),
            Some(_) => Err(LineError::Command),
        },
        Verb::Dump => match next_word(operands) {
            None => Ok(Command::Dump),
            Some(_) => Err(LineError::Command),
        },
        Verb::Aggregate => match next_word(operands) {
            None => Ok(Command::Aggregate),
            Some(_) => Err(LineError::Command),
        },
        Verb::Len => match next_word(operands) {
            None => Ok(Command::Len),
            Some(_) => Err(LineError::Command),
        },
    }
}

// Returns the route that a line without a command's name writes.
fn parse_route(line: &[u8]) -> Result<Command, LineError>
    ensures { IsRoute (words_of line.now) result }
{
    match net_and_target(line) {
        Ok((net, target)) => Ok(Command::Load(net, target)),
        // A first word that is no address was meant as a command's name.
        Err(LineError::Network(ParseCidrError::Address)) => Err(LineError::Command),
        Err(error) => Err(error),
    }
}

// Returns the network and the target that are the two words.
fn net_and_target(words: &[u8]) -> Result<(Net, Target), LineError>
    ensures { IsNetAndTarget (words_of words.now) result }
{
    let Some((net, target)) = two_words(words) else {
        return Err(LineError::Command);
    };
    let net = match parse_net(net) {
        Ok(net) => net,
        Err(error) => return Err(LineError::Network(error)),
    };
    match parse_target(target) {
        Some(target) => Ok((net, target)),
        None => Err(LineError::Target),
    }
}

// Returns the network that is the one operand.
fn only_net(operands: &[u8]) -> Result<Net, LineError>
    ensures { IsOnlyNet (words_of operands.now) result }
{
    let Some(word) = only_word(operands) else {
        return Err(LineError::Command);
    };
    match parse_net(word) {
        Ok(net) => Ok(net),
        Err(error) => Err(LineError::Network(error)),
    }
}

// Returns the address that is the one operand.
fn only_addr(operands: &[u8]) -> Result<IpAddr, LineError>
    ensures { IsOnlyAddr (words_of operands.now) result }
{
    let Some(word) = only_word(operands) else {
        return Err(LineError::Command);
    };
    match IpAddr::parse_ascii(word) {
        Ok(addr) => Ok(addr),
        Err(_) => Err(LineError::Network(ParseCidrError::Address)),
    }
}

// Returns the word that is the one operand.
fn only_word(operands: &[u8]) -> Option<&[u8]>
    ensures { MatchOption result (IsNotOne (words_of operands.now))
        (λ w. words_of operands.now ≡ w.now ∷ []) }
{
    let (word, rest) = next_word(operands)?;
    match next_word(rest) {
        None => Some(word),
        Some(_) => None,
    }
}

// Returns the two words.
fn two_words(words: &[u8]) -> Option<(&[u8], &[u8])>
    ensures { MatchOption result (IsNotTwo (words_of words.now))
        (λ p. words_of words.now ≡ p.0.now ∷ p.1.now ∷ []) }
{
    let (first, rest) = next_word(words)?;
    let second = only_word(rest)?;
    Some((first, second))
}
