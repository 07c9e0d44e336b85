// The settings of a shelf as a line has them, for `save` (document 02, W11) and `dev2` (W12): the five numbers of a `dev`, the second manager with its limit, the
// shelf's limit, and 0 to 8 identifiers. Any bytes are met with an answer.
#![tactic(auto)]

use fields::Fields;
use rules::Settings;

// The greatest number of 16 bits, and of 8.
const SHORT: u64 = u16::MAX as u64;

const BYTE: u64 = u8::MAX as u64;

// The identifiers, the last fields of their line, and how many there are: at most 8.
fn read_identifiers(fields: Fields) -> Option<([u16; 8], usize)> {
    let mut identifiers = [0; 8];
    let mut count = 0;
    for field in fields {
        let place = identifiers.get_mut(count)?;
        *place = fields::read_number(field, SHORT)? as u16;
        count += 1;
    }
    Some((identifiers, count))
}

// The settings in the fields that are left of a line, all of them, if each is there and fits. As in a file of version 2, a second manager equal to the first, with the
// limit 0, means that there is one manager.
pub fn take(mut fields: Fields) -> Option<Settings> {
    let manager = fields.number(SHORT)? as u16;
    let least = fields.number(BYTE)? as u8;
    let greatest = fields.number(BYTE)? as u8;
    let powers = fields.number(1)? == 1;
    let limit = fields.number(SHORT)? as u16;
    let second = fields.number(SHORT)? as u16;
    let second_limit = fields.number(SHORT)? as u16;
    let shelf = fields.number(SHORT)? as u16;
    let (identifiers, count) = read_identifiers(fields)?;
    Some(Settings {
        manager,
        least,
        greatest,
        powers,
        limit,
        second: settings_file::second_of(manager, second, second_limit),
        shelf,
        count,
        identifiers,
    })
}
