// The settings file for an updater in C (document 02, W11): each function is given a file's bytes, and answers one number; the last one writes the file's settings
// as a file of another version. Any bytes and any numbers are met with an answer. A refused file answers 0 to every question but those for its refusal.
// The numbers are no Options and Results, as C asks for them.
#![tactic(auto)]

ghost use Rattle.std.specs.Prelude.{◌≡◌, length};
ghost use Rattle.settings_file.specs.File.{old_read, new_read};
ghost use Rattle.settings_updater.specs.Answers.{file_version, file_rule, file_identifier, file_second, file_second_limit, save_number, saved};

use rules::Settings;

// ---- whether a file is accepted

// What the reader of version 1 refuses a file with, 0 where it accepts it.
#[unsafe(no_mangle)]
pub extern "C" fn trk_settings_v1_refusal(file: &[u8]) -> u8
    ensures { result ≡ (old_read file.now).number }
{
    settings_file::read_v1(file).number
}

// What the reader of both versions refuses a file with, 0 where it accepts it.
#[unsafe(no_mangle)]
pub extern "C" fn trk_settings_refusal(file: &[u8]) -> u8
    ensures { result ≡ (new_read file.now).number }
{
    settings_file::read_file(file).number
}

// ---- its numbers, as the reader of both versions has them

// The version.
#[tactic(auto, unfolding(crate::specs::Answers::file_version))]
#[unsafe(no_mangle)]
pub extern "C" fn trk_settings_version(file: &[u8]) -> u16
    ensures { result ≡ file_version file.now }
{
    if trk_settings_refusal(file) != 0 {
        return 0;
    }
    little::read::<u16>(file, 3)
}

// The settings of a file, zeros where it is refused.
fn settings_of(file: &[u8]) -> Settings
    ensures { result ≡ (new_read file.now).settings }
{
    settings_file::read_file(file).settings
}

// The first manager's identifier.
#[unsafe(no_mangle)]
pub extern "C" fn trk_settings_manager(file: &[u8]) -> u16
    ensures { result ≡ (new_read file.now).settings.manager }
{
    settings_of(file).manager
}

// The least granularity.
#[unsafe(no_mangle)]
pub extern "C" fn trk_settings_least(file: &[u8]) -> u8
    ensures { result ≡ (new_read file.now).settings.least }
{
    settings_of(file).least
}

// The greatest granularity.
#[unsafe(no_mangle)]
pub extern "C" fn trk_settings_greatest(file: &[u8]) -> u8
    ensures { result ≡ (new_read file.now).settings.greatest }
{
    settings_of(file).greatest
}

// The power-of-two rule, 0 or 1.
#[unsafe(no_mangle)]
pub extern "C" fn trk_settings_rule(file: &[u8]) -> u8
    ensures { result ≡ file_rule file.now }
{
    if settings_of(file).powers { 1 } else { 0 }
}

// The first manager's descriptor limit.
#[unsafe(no_mangle)]
pub extern "C" fn trk_settings_limit(file: &[u8]) -> u16
    ensures { result ≡ (new_read file.now).settings.limit }
{
    settings_of(file).limit
}

// The number of controllers.
#[unsafe(no_mangle)]
pub extern "C" fn trk_settings_count(file: &[u8]) -> u64
    ensures { result ≡ (new_read file.now).settings.count }
{
    settings_of(file).count as u64
}

// The identifier of the controller in this place, counted from 0; 0 past the last.
#[unsafe(no_mangle)]
pub extern "C" fn trk_settings_identifier(file: &[u8], place: u64) -> u16
    ensures { result ≡ file_identifier file.now place }
{
    let s = settings_of(file);
    if 8 <= place {
        return 0;
    }
    s.identifiers[place as usize]
}

// The second manager's identifier; where there is none, the first manager's, as in a file.
#[unsafe(no_mangle)]
pub extern "C" fn trk_settings_second(file: &[u8]) -> u16
    ensures { result ≡ file_second file.now }
{
    let s = settings_of(file);
    settings_file::second_place(s.manager, s.second)
}

// The second manager's descriptor limit; 0 where there is none.
#[unsafe(no_mangle)]
pub extern "C" fn trk_settings_second_limit(file: &[u8]) -> u16
    ensures { result ≡ file_second_limit file.now }
{
    settings::second_limit(settings_of(file).second)
}

// The limit over both managers.
#[unsafe(no_mangle)]
pub extern "C" fn trk_settings_shelf(file: &[u8]) -> u16
    ensures { result ≡ (new_read file.now).settings.shelf }
{
    settings_of(file).shelf
}

// ---- written at another version

// Writes the settings of a file as a file of this version to the front of the buffer, and answers 0; bytes after it stay as they were. Refused, in this order: what the
// reader of both versions refuses it with, 32 a version that cannot hold them, 8 a buffer too short; then no byte changes.
#[tactic(auto, unfolding(crate::specs::Answers::save_number, crate::specs::Answers::saved))]
#[unsafe(no_mangle)]
pub extern "C" fn trk_settings_save(file: &[u8], version: u16, buffer: &mut [u8]) -> u8
    ensures number { result ≡ save_number file.now version (length buffer.old) }
    ensures bytes { buffer.new ≡ saved file.now version buffer.old }
{
    let read = settings_file::read_file(file);
    if read.number != 0 {
        return read.number;
    }
    settings_file::write_file(buffer, version, read.settings)
}
