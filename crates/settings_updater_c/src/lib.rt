// The settings file for an updater in C, as `c/trk_settings.h` declares it: each export calls the function of that name in `settings_updater`, and promises what it
// promises. No Rattle crate can rest on a static library, so the functions themselves stand there.
#![tactic(auto)]

ghost use Rattle.std.specs.Prelude.{◌≡◌, length};
ghost use Rattle.settings_file.specs.File.{old_read, new_read};
ghost use Rattle.settings_updater.specs.Answers.{file_version, file_rule, file_identifier, file_second, file_second_limit, save_number, saved};

// ---- whether a file is accepted

// What the reader of version 1 refuses a file with, 0 where it accepts it.
#[unsafe(no_mangle)]
pub extern "C" fn trk_settings_v1_refusal(file: &[u8]) -> u8
    ensures { result ≡ (old_read file.now).number }
{
    settings_updater::trk_settings_v1_refusal(file)
}

// What the reader of both versions refuses a file with, 0 where it accepts it.
#[unsafe(no_mangle)]
pub extern "C" fn trk_settings_refusal(file: &[u8]) -> u8
    ensures { result ≡ (new_read file.now).number }
{
    settings_updater::trk_settings_refusal(file)
}

// ---- its numbers, as the reader of both versions has them

// The version.
#[unsafe(no_mangle)]
pub extern "C" fn trk_settings_version(file: &[u8]) -> u16
    ensures { result ≡ file_version file.now }
{
    settings_updater::trk_settings_version(file)
}

// The first manager's identifier.
#[unsafe(no_mangle)]
pub extern "C" fn trk_settings_manager(file: &[u8]) -> u16
    ensures { result ≡ (new_read file.now).settings.manager }
{
    settings_updater::trk_settings_manager(file)
}

// The least granularity.
#[unsafe(no_mangle)]
pub extern "C" fn trk_settings_least(file: &[u8]) -> u8
    ensures { result ≡ (new_read file.now).settings.least }
{
    settings_updater::trk_settings_least(file)
}

// The greatest granularity.
#[unsafe(no_mangle)]
pub extern "C" fn trk_settings_greatest(file: &[u8]) -> u8
    ensures { result ≡ (new_read file.now).settings.greatest }
{
    settings_updater::trk_settings_greatest(file)
}

// The power-of-two rule, 0 or 1.
#[unsafe(no_mangle)]
pub extern "C" fn trk_settings_rule(file: &[u8]) -> u8
    ensures { result ≡ file_rule file.now }
{
    settings_updater::trk_settings_rule(file)
}

// The first manager's descriptor limit.
#[unsafe(no_mangle)]
pub extern "C" fn trk_settings_limit(file: &[u8]) -> u16
    ensures { result ≡ (new_read file.now).settings.limit }
{
    settings_updater::trk_settings_limit(file)
}

// The number of controllers.
#[unsafe(no_mangle)]
pub extern "C" fn trk_settings_count(file: &[u8]) -> u64
    ensures { result ≡ (new_read file.now).settings.count }
{
    settings_updater::trk_settings_count(file)
}

// The identifier of the controller in this place, counted from 0; 0 past the last.
#[unsafe(no_mangle)]
pub extern "C" fn trk_settings_identifier(file: &[u8], place: u64) -> u16
    ensures { result ≡ file_identifier file.now place }
{
    settings_updater::trk_settings_identifier(file, place)
}

// The second manager's identifier; where there is none, the first manager's, as in a file.
#[unsafe(no_mangle)]
pub extern "C" fn trk_settings_second(file: &[u8]) -> u16
    ensures { result ≡ file_second file.now }
{
    settings_updater::trk_settings_second(file)
}

// The second manager's descriptor limit; 0 where there is none.
#[unsafe(no_mangle)]
pub extern "C" fn trk_settings_second_limit(file: &[u8]) -> u16
    ensures { result ≡ file_second_limit file.now }
{
    settings_updater::trk_settings_second_limit(file)
}

// The limit over both managers.
#[unsafe(no_mangle)]
pub extern "C" fn trk_settings_shelf(file: &[u8]) -> u16
    ensures { result ≡ (new_read file.now).settings.shelf }
{
    settings_updater::trk_settings_shelf(file)
}

// ---- written at another version

// Writes the settings of a file as a file of this version to the front of the buffer, and answers 0; bytes after it stay as they were. Refused, in this order: what the
// reader of both versions refuses it with, 32 a version that cannot hold them, 8 a buffer too short; then no byte changes.
#[unsafe(no_mangle)]
pub extern "C" fn trk_settings_save(file: &[u8], version: u16, buffer: &mut [u8]) -> u8
    ensures number { result ≡ save_number file.now version (length buffer.old) }
    ensures bytes { buffer.new ≡ saved file.now version buffer.old }
{
    settings_updater::trk_settings_save(file, version, buffer)
}
