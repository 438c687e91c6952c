// What is read without a lock.
use dc_conf::{ConfError, ResolveError, read_conf};
use dc_host::HostFiles;
use dc_outside::{Files, FilesError};
use dc_run::Settings;
use dc_text::{List, Mem, OutOfMemory, Text};
use std::alloc::Global;
use std::fs::File;
use std::rt::Files as SystemFiles;

/// The paths of what is read without a lock: of the configuration, which no run writes; of the template files that the words of
/// `loadtemplate` name; and of the databases that the configuration says are to be read alone, or of all, where the tool writes none. Nothing is
/// read for `drill`, which stands on no configuration.
pub fn paths_open_to_all<R: SystemFiles<File = File> + Alloc + Clone + Drop>(
    alloc: Global,
    rt: R,
    settings: &Settings,
    words: &List<Text>,
) -> Mem<List<Text>> {
    let mut paths = List::new(alloc);
    match words.as_slice() {
        [tool, ..] if tool.bytes() == b"drill".as_slice() => return Ok(paths),
        [tool, _, files @ ..] if tool.bytes() == b"loadtemplate".as_slice() => {
            for path in files {
                paths.push(path.copy()?)?;
            }
        }
        _ => {}
    }
    let text = configuration(alloc, rt, settings)?;
    add_read_alone(alloc, &mut paths, &text, writes_none(words))?;
    paths.push(settings.conf_path.copy()?)?;
    Ok(paths)
}

// The text of the configuration. One that can't be read is told of by the run.
fn configuration<R: SystemFiles<File = File> + Alloc + Clone + Drop>(
    alloc: Global,
    rt: R,
    settings: &Settings,
) -> Mem<Text> {
    let mut own = List::new(alloc);
    own.push(settings.conf_path.copy()?)?;
    match HostFiles::new(alloc, rt, own).read(&settings.conf_path) {
        Ok(Some(text)) => Ok(text),
        Ok(None) | Err(FilesError::Failed) => Ok(Text::new(alloc)),
        Err(FilesError::OutOfMemory) => Err(OutOfMemory),
    }
}

// Whether the words are those of a tool that writes no database: `show`, `get-selections`, or `set-selections` where lines are only checked.
fn writes_none(words: &List<Text>) -> bool {
    match words.as_slice() {
        [tool, ..] if tool.bytes() == b"show".as_slice() => true,
        [tool, ..] if tool.bytes() == b"get-selections".as_slice() => true,
        [tool, options @ ..] if tool.bytes() == b"set-selections".as_slice() => {
            options.iter().any(|option| is_check(option.bytes()))
        }
        _ => false,
    }
}

fn is_check(option: &[u8]) -> bool {
    option == b"-c".as_slice() || option == b"--checkonly".as_slice()
}

// The places of the databases with `Readonly: true`, or of all.
fn add_read_alone(alloc: Global, paths: &mut List<Text>, text: &Text, are_all: bool) -> Mem<()> {
    let conf = match read_conf(alloc, text.bytes()) {
        Ok(conf) => conf,
        Err(ConfError::Refused { line: _, kind: _ }) => return Ok(()),
        Err(ConfError::OutOfMemory) => return Err(OutOfMemory),
    };
    match conf.resolve(alloc, conf.databases()) {
        Ok(resolved) => {
            for spec in resolved.specs.as_slice() {
                if are_all || spec.readonly {
                    paths.push(spec.place.copy()?)?;
                }
            }
            Ok(())
        }
        Err(ResolveError::Unknown { root: _ }) => Ok(()),
        Err(ResolveError::OutOfMemory) => Err(OutOfMemory),
    }
}
