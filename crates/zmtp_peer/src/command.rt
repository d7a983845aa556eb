//! What stands in the body of a command: its name and data, the properties of READY, the reason of ERROR (RFC 23), the context of PING
//! (RFC 37).
ghost use Rattle.std.specs.Prelude.{◌≡◌, ◌<◌, ◌≤◌, Option, option_map, length, IfSome, codes, None, Some, if◌then◌else◌};
ghost use Rattle.std.specs.Option.{option_or, option_copied};
ghost use Rattle.std.specs.Result.{result_ok};
ghost use Rattle.std.specs.Str.{str_eq_ignore_ascii_case};
ghost use Rattle.zmtp_peer.specs.Commands.{command_of, reason_of, context_of, property_at, sized, sized_by_four, announced};

use zmtp_wire::CONTEXT_LIMIT;

/// The data of a READY doesn't fit its lengths.
#[derive(Drop)]
pub(crate) struct Misfit;

/// What an octet with a length counts off, and what is behind it.
fn sized(octets: &[u8]) -> Option<(&[u8], &[u8])>
    ensures read { option_map (λ x. (x.0.now, x.1.now)) result ≡ sized octets.now }
    ensures short { IfSome result (λ x. length x.0.now ≤ 255) }
    ensures less { IfSome result (λ x. length x.1.now < length octets.now) }
{
    let (length, octets) = octets.split_first()?;
    octets.split_at_checked(*length as usize)
}

/// The name and the data of a command; none if the name is cut.
#[tactic(auto, unfolding(crate::specs::Commands::command_of))]
pub(crate) fn command(body: &[u8]) -> Option<(&[u8], &[u8])>
    ensures { option_map (λ x. (x.0.now, x.1.now)) result ≡ command_of body.now }
{
    sized(body)
}

/// The reason that the data of an ERROR gives; none if it doesn't fit its length.
#[tactic(auto, unfolding(crate::specs::Commands::reason_of))]
pub(crate) fn reason(octets: &[u8]) -> Option<&[u8]>
    ensures read { option_copied result ≡ reason_of octets.now }
    ensures short { IfSome result (λ x. length x.now ≤ 255) }
{
    let (reason, rest) = sized(octets)?;
    if rest.is_empty() { Some(reason) } else { None }
}

/// How many octets the time to live of a PING has. It isn't used.
const TIME_TO_LIVE: usize = 2;

/// The context that the data of a PING gives; none if it is shorter or longer than it may be.
#[tactic(auto, unfolding(crate::specs::Commands::context_of))]
pub(crate) fn context(octets: &[u8]) -> Option<&[u8]>
    ensures { option_copied result ≡ context_of octets.now }
{
    let (_, context) = octets.split_at_checked(TIME_TO_LIVE)?;
    if context.len() <= CONTEXT_LIMIT {
        Some(context)
    } else {
        None
    }
}

/// What four octets with a length count off, and what is behind it.
fn sized_by_four(octets: &[u8]) -> Option<(&[u8], &[u8])>
    ensures read { option_map (λ x. (x.0.now, x.1.now)) result ≡ sized_by_four octets.now }
    ensures less { IfSome result (λ x. length x.1.now < length octets.now) }
{
    let (size, octets) = octets.split_first_chunk::<4>()?;
    octets.split_at_checked(u32::from_be_bytes(*size) as usize)
}

/// The property at the front: its name, its value, and the octets behind it.
#[tactic(auto, unfolding(crate::specs::Commands::property_at))]
fn property(octets: &[u8]) -> Option<(&[u8], &[u8], &[u8])>
    ensures read { option_map (λ x. (record { name = x.0.now; value = x.1.now }, x.2.now)) result
        ≡ property_at octets.now }
    ensures less { IfSome result (λ x. length x.2.now < length octets.now) }
{
    let (name, octets) = sized(octets)?;
    let (value, octets) = sized_by_four(octets)?;
    Some((name, value, octets))
}

const SOCKET_TYPE: &[u8] = b"Socket-Type";

/// The socket type found so far, or the value of this property if it has that name.
fn first_of<'a>(found: Option<&'a [u8]>, name: &[u8], value: &'a [u8]) -> Option<&'a [u8]>
    ensures { option_copied result ≡ option_or (option_copied found.entry)
        (if str_eq_ignore_ascii_case name.now (codes "Socket-Type") then Some value.now else None) }
{
    match found {
        Some(first) => Some(first),
        None if name.eq_ignore_ascii_case(SOCKET_TYPE) => Some(value),
        None => None,
    }
}

/// The socket type that the data of a READY announces, if any: the value of the first property of that name.
#[tactic(auto, unfolding(crate::specs::Commands::announced))]
pub(crate) fn socket_type(octets: &[u8]) -> Result<Option<&[u8]>, Misfit>
    ensures { option_map (λ x. option_copied x) (result_ok result) ≡ announced octets.now }
{
    let mut rest = octets;
    let mut found = None;
    while !rest.is_empty() {
        let Some((name, value, more)) = property(rest) else {
            return Err(Misfit);
        };
        found = first_of(found, name, value);
        rest = more;
    }
    Ok(found)
}
