// The settings file (document 02, W11): the reader of version 1, the reader of versions 1 and 2, and the writer of both, over lent bytes.
// Opening and storing files is the caller's. What the three answer and leave is said by specs/File.antt.
#![tactic(auto)]

ghost use Rattle.std.specs.Prelude.{◌≡◌, cond, ◌≤◌, length};
ghost use Rattle.little.specs.Little.{put, records};
ghost use Rattle.rules.specs.Lists.{every};
ghost use Rattle.rules.specs.Refusals.{refusal, refused_by};
ghost use Rattle.settings_file.specs.File.{file_size, mark, mark_ok, known_version, identifiers_in, second_of, second_place, second_in, shelf_in, settings_in, spare_ok, plain_rules, read_up_to, old_read, new_read, identifier_bytes, numbers_bytes, head_bytes, second_bytes, file_bytes, holds, write_tests, file_written};
ghost use Rattle.settings_file.specs.Inner.{read_of};

use rules::{Refusal, Second, Settings};

// What a reader answers: a refusal's number, or 0 and the settings. No Result, as the theorems of crates/demands/specs/SettingsFile.antt speak of these fields; inside it is one
// (`try_read`).
#[derive(Clone, Copy)]
pub struct Read {
    pub number: u8,
    pub settings: Settings,
}

// ---- a second manager in two numbers

// The second manager that an identifier and a limit stand for: the first manager again, with the limit 0, for none.
#[tactic(auto, unfolding(crate::specs::File::second_of))]
pub fn second_of(manager: u16, id: u16, limit: u16) -> Option<Second>
    ensures { result ≡ second_of manager id limit }
{
    if id == manager && limit == 0 {
        None
    } else {
        Some(Second { id, limit })
    }
}

// The identifier that stands for a second manager. (Its limit is `settings::second_limit`.)
pub fn second_place(manager: u16, second: Option<Second>) -> u16
    ensures { result ≡ second_place manager second }
{
    second.map_or(manager, |two| two.id)
}

// ---- reading

// What a reader answers: the settings, or a refusal, which comes with zeros in all fields.
impl From<Result<Settings, Refusal>> for Read {
    ghost from_gives = { λ found read. read ≡ read_of found };

    fn from(found: Result<Settings, Refusal>) -> Read {
        match found {
            Ok(settings) => Read {
                number: 0,
                settings,
            },
            Err(refusal) => Read {
                number: refusal.number(),
                settings: settings::no_settings(),
            },
        }
    }
}

// Whether the file begins with the mark `TRK`.
fn marked(file: &[u8]) -> bool
    requires { 5 ≤ length file.now }
    ensures { result ≡ mark_ok file.now }
{
    file.starts_with(b"TRK")
}

// Whether a version is one of 1 to `last`.
fn known(version: u16, last: u16) -> bool
    ensures { result ≡ known_version last version }
{
    1 <= version && version <= last
}

// The bytes of a file of this version.
fn file_size(version: u16) -> usize
    ensures { result ≡ file_size version }
{
    if version == 1 { 29 } else { 35 }
}

// The 8 places for identifiers, in use or not.
fn read_identifiers(file: &[u8]) -> [u16; 8]
    requires { 29 ≤ length file.now }
    ensures { result ≡ identifiers_in file.now }
{
    std::array::from_fn(|i| little::read::<u16>(file, 13 + 2 * i))
}

// The second manager of a file of this version.
#[tactic(auto, unfolding(crate::specs::File::second_in))]
fn read_second(file: &[u8], version: u16) -> Option<Second>
    requires { file_size version ≤ length file.now }
    ensures { result ≡ second_in version file.now }
{
    if version == 1 {
        return None;
    }
    let manager = little::read::<u16>(file, 5);
    let id = little::read::<u16>(file, 29);
    let limit = little::read::<u16>(file, 31);
    second_of(manager, id, limit)
}

// The shelf's limit in a file of this version.
#[tactic(auto, unfolding(crate::specs::File::shelf_in))]
fn read_shelf(file: &[u8], version: u16) -> u16
    requires { file_size version ≤ length file.now }
    ensures { result ≡ shelf_in version file.now }
{
    if version == 1 {
        return 128;
    }
    little::read::<u16>(file, 33)
}

// The settings of a file of this version.
fn read_settings(file: &[u8], version: u16) -> Settings
    requires { (29 ≤ length file.now) × (file_size version ≤ length file.now) }
    ensures { result ≡ settings_in version file.now }
{
    let manager = little::read::<u16>(file, 5);
    let least = little::read::<u8>(file, 7);
    let greatest = little::read::<u8>(file, 8);
    let rule = little::read::<u8>(file, 9);
    let powers = rule == 1;
    let limit = little::read::<u16>(file, 10);
    let second = read_second(file, version);
    let shelf = read_shelf(file, version);
    let count = little::read::<u8>(file, 12) as usize;
    let identifiers = read_identifiers(file);
    Settings {
        manager,
        least,
        greatest,
        powers,
        limit,
        second,
        shelf,
        count,
        identifiers,
    }
}

// Whether the places that are not in use hold zeros.
fn spare_ok(s: Settings) -> bool
    ensures { result ≡ spare_ok s }
{
    s.identifiers.iter().skip(s.count).all(|id| *id == 0)
}

// Whether a file has its settings in their one encoding: the rule's byte is 0 or 1, and spare places hold zeros.
fn plain(file: &[u8], s: Settings) -> bool
    requires { 29 ≤ length file.now }
    ensures { result ≡ every (plain_rules file.now s) }
{
    little::read::<u8>(file, 9) <= 1 && spare_ok(s)
}

// The settings of a file of a version up to `last`. Refused, in this order: 35 fewer than 5 bytes, 31 another mark, 32 another version, 35 another length than the
// version's, 16 settings that break the rules or are not in their one encoding.
#[tactic(auto, unfolding(crate::specs::File::read_up_to))]
fn try_read(file: &[u8], last: u16) -> Result<Settings, Refusal>
    ensures { read_of result ≡ read_up_to last file.now }
{
    if file.len() < 5 {
        return Err(Refusal::FileLength);
    }
    if !marked(file) {
        return Err(Refusal::Mark);
    }
    let version = little::read::<u16>(file, 3);
    if !known(version, last) {
        return Err(Refusal::FileVersion);
    }
    if file.len() != file_size(version) {
        return Err(Refusal::FileLength);
    }
    let settings = read_settings(file, version);
    if !plain(file, settings) || !settings::settings_ok(settings) {
        return Err(Refusal::Settings);
    }
    Ok(settings)
}

// The settings of a version 1 file: one manager, and the shelf's limit 128. Refused, in this order: 35 fewer than 5 bytes, 31 another mark, 32 another version than 1,
// 35 another length than 29 bytes, 16 settings that break the rules or are not in their one encoding. A refusal comes with zeros in all fields.
pub fn read_v1(file: &[u8]) -> Read
    ensures { result ≡ old_read file.now }
{
    Read::from(try_read(file, 1))
}

// The settings of a file of version 1 or 2. Refused, in this order: 35 fewer than 5 bytes, 31 another mark, 32 another version, 35 another length than the
// version's, 16 settings that break the rules or are not in their one encoding. A refusal comes with zeros in all fields.
pub fn read_file(file: &[u8]) -> Read
    ensures { result ≡ new_read file.now }
{
    Read::from(try_read(file, 2))
}

// ---- writing

// The number that stands for a bool.
fn bit(b: bool) -> u8
    ensures { result ≡ cond b 1 0 }
{
    if b { 1 } else { 0 }
}

// Stores the mark.
fn put_mark(buffer: &mut [u8])
    requires { 29 ≤ length buffer.old }
    ensures { buffer.new ≡ put buffer.old 0 mark }
{
    buffer[..3].copy_from_slice(b"TRK");
}

// Stores the 8 places for identifiers.
fn put_identifiers(buffer: &mut [u8], identifiers: [u16; 8])
    requires { 29 ≤ length buffer.old }
    ensures { buffer.new ≡ put buffer.old 13 (records identifier_bytes identifiers) }
{
    for (i, id) in identifiers.iter().enumerate() {
        little::write(buffer, 13 + 2 * i, *id);
    }
}

// Stores the numbers that both versions have.
fn put_numbers(buffer: &mut [u8], s: Settings)
    requires { 29 ≤ length buffer.old }
    ensures { buffer.new ≡ put buffer.old 5 (numbers_bytes s) }
{
    let rule = bit(s.powers);
    let count = s.count as u64;
    little::write(buffer, 5, s.manager);
    little::write(buffer, 7, s.least);
    little::write(buffer, 8, s.greatest);
    little::write(buffer, 9, rule);
    little::write(buffer, 10, s.limit);
    little::put_number(buffer, 12, 1, count);
}

// Stores the mark, the version and the fields that both versions have.
fn put_head(buffer: &mut [u8], version: u16, s: Settings)
    requires { 29 ≤ length buffer.old }
    ensures { buffer.new ≡ put buffer.old 0 (head_bytes version s) }
{
    put_mark(buffer);
    little::write(buffer, 3, version);
    put_numbers(buffer, s);
    let identifiers = s.identifiers;
    put_identifiers(buffer, identifiers);
}

// Stores the fields that version 2 adds.
fn put_second(buffer: &mut [u8], s: Settings)
    requires { 35 ≤ length buffer.old }
    ensures { buffer.new ≡ put buffer.old 29 (second_bytes s) }
{
    little::write(buffer, 29, second_place(s.manager, s.second));
    little::write(buffer, 31, settings::second_limit(s.second));
    little::write(buffer, 33, s.shelf);
}

// Whether a version can hold these settings.
#[tactic(auto, unfolding(crate::specs::File::holds))]
fn can_hold(version: u16, s: Settings) -> bool
    ensures { result ≡ holds version s }
{
    if version == 1 {
        s.second.is_none() && s.shelf == 128
    } else {
        version == 2
    }
}

// Stores the file of this version, zeros in its spare bytes.
#[tactic(auto, unfolding(crate::specs::File::file_bytes))]
fn put_file(buffer: &mut [u8], version: u16, s: Settings)
    requires { (s.count ≤ 8) × (file_size version ≤ length buffer.old) }
    ensures { buffer.new ≡ put buffer.old 0 (file_bytes version s) }
{
    let cleaned = settings::clean(s);
    put_head(buffer, version, cleaned);
    if version != 1 {
        put_second(buffer, s);
    }
}

// Writes the file of this version to the front of the buffer, zeros in its spare bytes; bytes after it stay as they were. Refused, in this order: 16 settings
// that break the rules, 32 a version that cannot hold them, 8 a buffer too short; then no byte changes.
#[tactic(auto, unfolding(crate::specs::File::file_written))]
fn try_write(buffer: &mut [u8], version: u16, s: Settings) -> Result<(), Refusal>
    ensures number { refused_by result ≡ refusal (write_tests (length buffer.old) version s) }
    ensures bytes { buffer.new ≡ file_written buffer.old version s }
{
    if !settings::settings_ok(s) {
        return Err(Refusal::Settings);
    }
    if !can_hold(version, s) {
        return Err(Refusal::FileVersion);
    }
    if buffer.len() < file_size(version) {
        return Err(Refusal::Short);
    }
    put_file(buffer, version, s);
    Ok(())
}

// The same, with a number: the refusal's, or 0 where it is written.
pub fn write_file(buffer: &mut [u8], version: u16, s: Settings) -> u8
    ensures number { result ≡ refusal (write_tests (length buffer.old) version s) }
    ensures bytes { buffer.new ≡ file_written buffer.old version s }
{
    match try_write(buffer, version, s) {
        Ok(()) => 0,
        Err(refusal) => refusal.number(),
    }
}
