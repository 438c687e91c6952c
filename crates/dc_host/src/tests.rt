// The files of the host, in a folder.
use crate::files::{HostFiles, MAX_FILE};
use crate::system::HostSystem;
use dc_outside::{Files, FilesError, FilesOp};
use dc_text::{List, Mem, Text};
use std::alloc::Global;
use std::fs::OpenFile;
use std::os::unix::fs::{MetadataExt, symlink};
use std::{env, fs, io};

// An empty folder of this process.
fn make_folder(rt: &HostRuntime, name: &str) -> io::Result<String> {
    let id = std::process::id(rt.process());
    let folder = format!(in rt.alloc(); "{}/dckit-{id}-{name}", env::temp_dir(rt)?.display())?;
    fs::create_dir(rt, folder.as_str())?;
    Ok(folder)
}

// The path of a name in the folder.
fn inside(rt: &HostRuntime, folder: &str, name: &str) -> io::Result<String> {
    Ok(format!(in rt.alloc(); "{folder}/{name}")?)
}

// The same, as the files take it.
fn text_inside(rt: &HostRuntime, folder: &str, name: &str) -> Option<Text> {
    let path = inside(rt, folder, name).ok()?;
    Some(Text::from_bytes(rt.alloc(), path.as_bytes()).ok()?)
}

// How many bytes a read gives.
fn count_of(answer: Result<Option<Text>, FilesError>) -> Result<Option<usize>, FilesError> {
    match answer {
        Ok(Some(bytes)) => Ok(Some(bytes.bytes().len())),
        Ok(None) => Ok(None),
        Err(error) => Err(error),
    }
}

#[test]
fn files_of_any_size_are_read(rt: HostRuntime) {
    let folder = make_folder(&rt, "size").ok().expect(&rt, "done");
    let mut files = HostFiles::new(
        rt.alloc(),
        rt.clone().ok().expect(&rt, "done"),
        List::new(rt.alloc()),
    );
    for (name, size, answer) in [
        ("small", 3, Ok(Some(3))),
        ("pieces", 200_000, Ok(Some(200_000))),
        ("largest", MAX_FILE, Ok(Some(MAX_FILE))),
        ("larger", MAX_FILE + 1, Err(FilesError::Failed)),
    ] {
        let path = inside(&rt, &folder, name).ok().expect(&rt, "done");
        fs::create(&rt, path.as_str())
            .ok()
            .expect(&rt, "done")
            .set_len(size as u64)
            .ok()
            .expect(&rt, "done");
        let found = files.read(&text_inside(&rt, &folder, name).expect(&rt, "done"));
        assert_eq!(rt; count_of(found), answer, "{name:?}");
    }
    fs::remove_dir_all(&rt, folder.as_str())
        .ok()
        .expect(&rt, "done");
}

#[test]
fn missing_files_are_read(rt: HostRuntime) {
    let folder = make_folder(&rt, "missing").ok().expect(&rt, "done");
    let mut files = HostFiles::new(
        rt.alloc(),
        rt.clone().ok().expect(&rt, "done"),
        List::new(rt.alloc()),
    );
    for (name, answer) in [
        ("missing", Ok(None)),
        ("missing/below", Ok(None)),
        (".", Err(FilesError::Failed)),
    ] {
        let found = files.read(&text_inside(&rt, &folder, name).expect(&rt, "done"));
        assert_eq!(rt; count_of(found), answer, "{name:?}");
    }
    let not_utf8 = Text::from_bytes(rt.alloc(), b"\xff")
        .ok()
        .expect(&rt, "done");
    assert_eq!(rt; count_of(files.read(&not_utf8)), Err(FilesError::Failed));
    fs::remove_dir_all(&rt, folder.as_str())
        .ok()
        .expect(&rt, "done");
}

// What stands at the path, or no bytes where the read gives none.
fn bytes_of(alloc: Global, answer: Result<Option<Text>, FilesError>) -> Text {
    match answer {
        Ok(Some(bytes)) => bytes,
        Ok(None) | Err(_) => Text::new(alloc),
    }
}

#[test]
fn a_file_is_read(rt: HostRuntime) {
    let folder = make_folder(&rt, "read").ok().expect(&rt, "done");
    let mut files = HostFiles::new(
        rt.alloc(),
        rt.clone().ok().expect(&rt, "done"),
        List::new(rt.alloc()),
    );
    fs::write(
        &rt,
        inside(&rt, &folder, "written")
            .ok()
            .expect(&rt, "done")
            .as_str(),
        "ab\nc",
    )
    .ok()
    .expect(&rt, "done");
    let found = files.read(&text_inside(&rt, &folder, "written").expect(&rt, "done"));
    assert_eq!(rt; bytes_of(rt.alloc(), found).bytes(), b"ab\nc".as_slice());
    fs::remove_dir_all(&rt, folder.as_str())
        .ok()
        .expect(&rt, "done");
}

// The paths below a folder, a bar after each.
fn show_paths(alloc: Global, answer: Result<List<Text>, FilesError>) -> Mem<Text> {
    let mut shown = Text::new(alloc);
    match answer {
        Ok(paths) => {
            for path in paths.as_slice() {
                shown.append(path.bytes())?;
                shown.push(b'|')?;
            }
        }
        Err(_) => shown.append(b"failed")?,
    }
    Ok(shown)
}

fn mode_of(rt: &HostRuntime, path: &str) -> io::Result<u32> {
    Ok(fs::metadata(rt, path)?.mode() & 0o7777)
}

// Puts the bytes at the path as a file that is saved.
fn save(
    files: &mut HostFiles<HostSystem<HostRuntime>>,
    new: &Text,
    path: &Text,
    bytes: &str,
    mode: u16,
) -> Result<(), FilesError> {
    files.write(new, bytes.as_bytes(), mode)?;
    files.sync(new)?;
    files.rename(new, path)?;
    files.sync_names()
}

#[test]
fn files_are_saved(rt: HostRuntime) {
    let folder = make_folder(&rt, "save").ok().expect(&rt, "done");
    let path = inside(&rt, &folder, "a/b/q").ok().expect(&rt, "done");
    let new = text_inside(&rt, &folder, "a/b/q-new").expect(&rt, "done");
    let saved = text_inside(&rt, &folder, "a/b/q").expect(&rt, "done");
    let mut files = HostFiles::new(
        rt.alloc(),
        rt.clone().ok().expect(&rt, "done"),
        List::new(rt.alloc()),
    );
    for (bytes, mode) in [("first", 0o666), ("second", 0o4755), ("", 0o600)] {
        assert_eq!(rt; save(&mut files, &new, &saved, bytes, mode), Ok(()));
        assert_eq!(rt;
            fs::read_to_string(&rt, path.as_str())
                .ok()
                .expect(&rt, "done")
                .as_str(),
            bytes
        );
        assert_eq!(rt;
            mode_of(&rt, &path).ok().expect(&rt, "done"),
            u32::from(mode),
            "whatever the umask"
        );
    }
    assert_eq!(rt;
        save(&mut files, &new, &saved, "", 0o200),
        Ok(()),
        "it is synced though it can't be read"
    );
    fs::remove_dir_all(&rt, folder.as_str())
        .ok()
        .expect(&rt, "done");
}

// Whether a read, and then a save, at the path are done.
fn can_use(
    files: &mut HostFiles<HostSystem<HostRuntime>>,
    new: &Text,
    path: &Text,
) -> (bool, bool) {
    let is_read = files.read(path).is_ok();
    (is_read, save(files, new, path, "x", 0o600).is_ok())
}

// The same of another program, which ends at once.
fn another_can_use(rt: &HostRuntime, new: &Text, path: &Text) -> Option<(bool, bool)> {
    let mut files = HostFiles::new(rt.alloc(), rt.clone().ok()?, List::new(rt.alloc()));
    Some(can_use(&mut files, new, path))
}

#[test]
fn a_locked_file_is_a_fault(rt: HostRuntime) {
    let folder = make_folder(&rt, "lock").ok().expect(&rt, "done");
    let path = text_inside(&rt, &folder, "q").expect(&rt, "done");
    let new = text_inside(&rt, &folder, "q-new").expect(&rt, "done");
    let mut first = HostFiles::new(
        rt.alloc(),
        rt.clone().ok().expect(&rt, "done"),
        List::new(rt.alloc()),
    );
    assert_eq!(rt;
        can_use(&mut first, &new, &path),
        (true, true),
        "nothing there"
    );
    assert_eq!(rt;
        another_can_use(&rt, &new, &path).expect(&rt, "done"),
        (false, false),
        "a file of the first"
    );
    assert_eq!(rt; can_use(&mut first, &new, &path), (true, true), "its own");
    fs::remove_dir_all(&rt, folder.as_str())
        .ok()
        .expect(&rt, "done");
}

#[test]
fn a_listed_folder_is_locked(rt: HostRuntime) {
    let folder = make_folder(&rt, "listed").ok().expect(&rt, "done");
    let path = text_inside(&rt, &folder, "q").expect(&rt, "done");
    let new = text_inside(&rt, &folder, "q-new").expect(&rt, "done");
    let dir = Text::from_bytes(rt.alloc(), folder.as_bytes());
    let dir = dir.ok().expect(&rt, "done");
    let mut first = HostFiles::new(
        rt.alloc(),
        rt.clone().ok().expect(&rt, "done"),
        List::new(rt.alloc()),
    );
    assert_eq!(rt; first.list(&dir).is_ok(), true);
    assert_eq!(rt; can_use(&mut first, &new, &path), (true, true));
    assert_eq!(rt; first.list(&dir).is_ok(), true, "its own");
    let mut other = HostFiles::new(
        rt.alloc(),
        rt.clone().ok().expect(&rt, "done"),
        List::new(rt.alloc()),
    );
    assert_eq!(rt; other.list(&dir).is_ok(), false, "the first has it");
    fs::remove_dir_all(&rt, folder.as_str())
        .ok()
        .expect(&rt, "done");
}

#[test]
fn a_folder_that_is_not_there_is_locked(rt: HostRuntime) {
    let folder = make_folder(&rt, "first").ok().expect(&rt, "done");
    let dir = text_inside(&rt, &folder, "a/b").expect(&rt, "done");
    let mut first = HostFiles::new(
        rt.alloc(),
        rt.clone().ok().expect(&rt, "done"),
        List::new(rt.alloc()),
    );
    let shown = show_paths(rt.alloc(), first.list(&dir))
        .ok()
        .expect(&rt, "done");
    assert_eq!(rt; shown.bytes(), b"".as_slice(), "its lock isn't listed");
    let mut other = HostFiles::new(
        rt.alloc(),
        rt.clone().ok().expect(&rt, "done"),
        List::new(rt.alloc()),
    );
    assert_eq!(rt; other.list(&dir).is_ok(), false, "the first has it");
    fs::remove_dir_all(&rt, folder.as_str())
        .ok()
        .expect(&rt, "done");
}

// What another program does: it puts the text at the name in the folder.
fn put_other(rt: &HostRuntime, folder: &str, name: &str, text: &str) -> io::Result<()> {
    fs::write(rt, inside(rt, folder, name)?.as_str(), text)
}

fn holds(rt: &HostRuntime, folder: &str, name: &str, text: &str) -> io::Result<bool> {
    let held = fs::read_to_string(rt, inside(rt, folder, name)?.as_str())?;
    Ok(held.as_str() == text)
}

#[test]
fn a_file_that_came_meanwhile_is_kept(rt: HostRuntime) {
    let folder = make_folder(&rt, "meanwhile").ok().expect(&rt, "done");
    let path = text_inside(&rt, &folder, "q").expect(&rt, "done");
    let new = text_inside(&rt, &folder, "q-new").expect(&rt, "done");
    let mut files = HostFiles::new(
        rt.alloc(),
        rt.clone().ok().expect(&rt, "done"),
        List::new(rt.alloc()),
    );
    assert_eq!(rt; files.read(&path).is_ok(), true);
    assert_eq!(rt; files.write(&new, b"x", 0o600), Ok(()));
    assert!(rt; put_other(&rt, &folder, "q", "other").is_ok());
    assert_eq!(rt; files.rename(&new, &path), Err(FilesError::Failed));
    assert!(rt; put_other(&rt, &folder, "q-new", "theirs").is_ok());
    assert_eq!(rt; files.write(&new, b"x", 0o600), Err(FilesError::Failed));
    let kept = holds(&rt, &folder, "q", "other");
    assert_eq!(rt; kept.ok(), Some(true));
    let theirs = holds(&rt, &folder, "q-new", "theirs");
    assert_eq!(rt; theirs.ok(), Some(true));
    fs::remove_dir_all(&rt, folder.as_str())
        .ok()
        .expect(&rt, "done");
}

#[test]
fn links_and_devices_are_not_written(rt: HostRuntime) {
    let folder = make_folder(&rt, "links").ok().expect(&rt, "done");
    let path = text_inside(&rt, &folder, "q").expect(&rt, "done");
    let new = text_inside(&rt, &folder, "q-new").expect(&rt, "done");
    let target = inside(&rt, &folder, "target").ok().expect(&rt, "done");
    fs::write(&rt, target.as_str(), "kept")
        .ok()
        .expect(&rt, "done");
    symlink(
        &rt,
        "target",
        inside(&rt, &folder, "q-new")
            .ok()
            .expect(&rt, "done")
            .as_str(),
    )
    .ok()
    .expect(&rt, "done");
    let mut files = HostFiles::new(
        rt.alloc(),
        rt.clone().ok().expect(&rt, "done"),
        List::new(rt.alloc()),
    );
    assert_eq!(rt; save(&mut files, &new, &path, "x", 0o600), Ok(()));
    assert_eq!(rt;
        fs::read_to_string(&rt, target.as_str())
            .ok()
            .expect(&rt, "done")
            .as_str(),
        "kept"
    );
    let device = Text::from_bytes(rt.alloc(), b"/dev/zero")
        .ok()
        .expect(&rt, "done");
    assert_eq!(rt; files.read(&device).is_err(), true);
    fs::remove_dir_all(&rt, folder.as_str())
        .ok()
        .expect(&rt, "done");
}

// A call on the path. A write leaves "x" with mode 640, and a rename is to the path itself, where a file stands.
fn call(
    files: &mut HostFiles<HostSystem<HostRuntime>>,
    op: FilesOp,
    path: &Text,
) -> Result<(), FilesError> {
    match op {
        FilesOp::Read => files.read(path).map(|_| ()),
        FilesOp::List => files.list(path).map(|_| ()),
        FilesOp::Write => files.write(path, b"x", 0o640),
        FilesOp::Sync => files.sync(path),
        FilesOp::Rename => files.rename(path, path),
        FilesOp::SyncNames => files.sync_names(),
        FilesOp::Remove => files.remove(path),
    }
}

#[test]
fn files_are_changed(rt: HostRuntime) {
    let folder = make_folder(&rt, "change").ok().expect(&rt, "done");
    let mut files = HostFiles::new(
        rt.alloc(),
        rt.clone().ok().expect(&rt, "done"),
        List::new(rt.alloc()),
    );
    for (number, (op, name, answer)) in [
        (FilesOp::Write, "a/q", Ok(())),
        (FilesOp::Write, "a/q", Ok(())),
        (FilesOp::Write, "a", Err(FilesError::Failed)),
        (FilesOp::Write, "a/q/b/c", Err(FilesError::Failed)),
        (FilesOp::SyncNames, "", Ok(())),
        (FilesOp::Rename, "a/q", Err(FilesError::Failed)),
        (FilesOp::Rename, "a/r", Err(FilesError::Failed)),
        (FilesOp::Sync, "a/r", Err(FilesError::Failed)),
        (FilesOp::Remove, "a", Err(FilesError::Failed)),
        (FilesOp::Remove, "a/q", Ok(())),
        (FilesOp::Remove, "a/q", Ok(())),
        (FilesOp::SyncNames, "", Ok(())),
    ]
    .into_iter()
    .enumerate()
    {
        let given = call(
            &mut files,
            op,
            &text_inside(&rt, &folder, name).expect(&rt, "done"),
        );
        assert_eq!(rt; given, answer, "call {number}");
    }
    fs::remove_dir_all(&rt, folder.as_str())
        .ok()
        .expect(&rt, "done");
}

// Files at any depth, and links.
fn fill(
    rt: &HostRuntime,
    files: &mut HostFiles<HostSystem<HostRuntime>>,
    folder: &str,
) -> Option<()> {
    for name in ["d/b", "d/a/c", "d/a.x", "da/x"] {
        files
            .write(&text_inside(rt, folder, name)?, b"", 0o600)
            .ok()?;
    }
    for (name, target) in [
        ("d/to_file", "a/c"),
        ("d/to_folder", "../da"),
        ("d/nowhere", "x"),
    ] {
        symlink(rt, target, inside(rt, folder, name).ok()?.as_str()).ok()?;
    }
    Some(())
}

#[test]
fn files_are_listed(rt: HostRuntime) {
    let folder = make_folder(&rt, "list").ok().expect(&rt, "done");
    let mut files = HostFiles::new(
        rt.alloc(),
        rt.clone().ok().expect(&rt, "done"),
        List::new(rt.alloc()),
    );
    fill(&rt, &mut files, &folder).expect(&rt, "done");
    for (name, paths) in [
        ("d", "a.x|a/c|b|to_file|to_folder/x|"),
        ("d/a", "c|"),
        ("x", ""),
        ("d/b", "failed"),
    ] {
        let answer = files.list(&text_inside(&rt, &folder, name).expect(&rt, "done"));
        let shown = show_paths(rt.alloc(), answer).ok().expect(&rt, "done");
        assert_eq!(rt; shown.bytes(), paths.as_bytes(), "{name:?}");
    }
    fs::remove_dir_all(&rt, folder.as_str())
        .ok()
        .expect(&rt, "done");
}
