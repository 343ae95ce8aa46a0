//! Texts of addresses.

ghost use Rattle.std.specs.Prelude.{◌≡◌, ◌≤◌, ◌<◌, length, IfSome};
ghost use Rattle.std.specs.Option.{option_copied};
ghost use Rattle.std.specs.Net.Reader.{read_number};
ghost use Rattle.toml.specs.Data.{get_member};
ghost use Rattle.toml.specs.View.{table_view};
ghost use Rattle.config_walk.specs.Address.{past_number as past_number_lem, past_byte as past_byte_lem, past_part as past_part_lem, past_ip as past_ip_lem, is_address as is_address_lem};
ghost use Rattle.config_walk.specs.Values.{Says, address_of};

use crate::ConfigFault;
use crate::faults::out_of_range;
use crate::values::read_text;
use mrp_types::Octets;
use std::alloc::Global;
use toml::Table;

// The value of the decimal digits in front, if there are some and it is at most `most`, and how many they are.
fn front_number(text: &[u8], most: u32) -> Option<(u32, usize)>
    ensures value { result ≡ read_number 10 most text.now }
    ensures bound { IfSome result (λ n. (0 < n.1) × (n.1 ≤ length text.now)) }
{
    let mut value = 0u32;
    let mut count = 0;
    for byte in text {
        let Some(digit) = char::from(*byte).to_digit(10) else {
            break;
        };
        let next = value as u64 * 10 + digit as u64;
        if next > most as u64 {
            return None;
        }
        value = next as u32;
        count += 1;
    }
    if count == 0 {
        return None;
    }
    Some((value, count))
}

#[tactic(auto, unfolding(crate::specs::Address::past_number))]
fn past_number(text: &[u8], least: u32, most: u32) -> Option<&[u8]>
    ensures { option_copied result ≡ past_number_lem least most text.now }
{
    let (value, count) = front_number(text, most)?;
    if value < least || (count > 1 && text[0] == b'0') {
        return None;
    }
    Some(&text[count..])
}

fn past_byte(text: &[u8], byte: u8) -> Option<&[u8]>
    ensures { option_copied result ≡ past_byte_lem byte text.now }
{
    match text {
        [first, rest @ ..] if *first == byte => Some(rest),
        _ => None,
    }
}

fn past_part(text: &[u8], byte: u8) -> Option<&[u8]>
    ensures { option_copied result ≡ past_part_lem byte text.now }
{
    let rest = past_number(text, 0, 255)?;
    past_byte(rest, byte)
}

#[tactic(auto, unfolding(crate::specs::Address::past_ip))]
fn past_ip(text: &[u8]) -> Option<&[u8]>
    ensures { option_copied result ≡ past_ip_lem text.now }
{
    let second = past_part(text, b'.')?;
    let third = past_part(second, b'.')?;
    let fourth = past_part(third, b'.')?;
    past_part(fourth, b':')
}

fn is_address(text: &[u8]) -> bool
    ensures { result ≡ is_address_lem text.now }
{
    let Some(port) = past_ip(text) else {
        return false;
    };
    let Some(rest) = past_number(port, 1, 65_535) else {
        return false;
    };
    rest.is_empty()
}

/// The address of this key, which faults call `name`, as text.
#[tactic(auto, unfolding(crate::specs::Values::address_of))]
pub fn read_address(
    alloc: Global,
    table: &Table,
    key: &str,
    name: &str,
) -> Result<Octets, ConfigFault>
    ensures { Says (λ a. a) (address_of name.now (get_member key.now (table_view table.now))) result }
{
    let text = read_text(alloc, table, key, name)?;
    if !is_address(text.as_bytes()) {
        return Err(out_of_range(alloc, name));
    }
    Ok(Octets::from_slice(alloc, text.as_bytes())?)
}
