// The real system: what it finds, and that it passes errors on. What can't be synced shows that a sync is made.
use crate::host_system::HostSystem;
use crate::system::{Access, Kind, Lock, System};
use std::fs::{self, File};
use std::io::{self, ErrorKind};
use std::os::unix::fs::symlink;
use std::rt::Files;
use std::test::Fail;

// Whether each call of an open file fails.
fn fails<S: System>(system: &mut S) -> bool {
    system.kind().is_err()
        && system.len().is_err()
        && system.read(0, &mut [0]).is_err()
        && system.write(0, b"a").is_err()
        && system.lock(Lock::Shared).is_err()
        && system.sync_data().is_err()
        && system.sync_all().is_err()
        && system.sync_folder().is_err()
}

fn is<T: PartialEq + Drop>(answer: io::Result<T>, wanted: T) -> bool {
    match answer {
        Ok(value) => value == wanted,
        Err(_) => false,
    }
}

fn fails_as<T: Drop>(answer: io::Result<T>, kind: ErrorKind) -> bool {
    match answer {
        Ok(_) => false,
        Err(error) => error.kind() == kind,
    }
}

// Whether what has a path is told apart.
fn tells_kinds<S: System>(system: &mut S) -> bool {
    is(system.kind_of("/"), Kind::Folder)
        && is(system.kind_of("/dev/null"), Kind::Device)
        && fails_as(system.kind_of("missing"), ErrorKind::NotFound)
        && fails_as(system.open("missing", Access::Read), ErrorKind::NotFound)
}

// Whether a folder can't be read, a device can't be synced, nor the folder of what the system makes up, also by a link.
fn passes_errors_on<S: System>(system: &mut S, link: &str) -> bool {
    system.open("/", Access::Read).is_ok()
        && is(system.kind(), Kind::Folder)
        && system.read(0, &mut [0]).is_err()
        && system.open("/dev/null", Access::Make).is_ok()
        && is(system.kind(), Kind::Device)
        && is(system.write(0, b"abc"), 3)
        && system.sync_data().is_err()
        && system.sync_all().is_err()
        && system.open_folder("/proc/version").is_ok()
        && system.sync_folder().is_err()
        && system.open_folder(link).is_ok()
        && system.sync_folder().is_err()
        && system.open_folder("missing").is_err()
        && system.sync_folder().is_err()
}

// Whether a file is made, locked, takes bytes and is synced.
fn keeps_bytes<S: System>(system: &mut S, path: &str) -> bool {
    system.open(path, Access::Make).is_ok()
        && system.lock(Lock::Exclusive).is_ok()
        && is(system.write(1, b"ab"), 2)
        && is(system.len(), 3)
        && system.sync_all().is_ok()
        && system.sync_data().is_ok()
        && system.open_folder(path).is_ok()
        && system.sync_folder().is_ok()
}

// Whether the lock keeps others away, and a file that is opened to be read gives its bytes and takes none.
fn only_reads<S: System>(second: &mut S, path: &str) -> bool {
    let mut buffer = [7; 3];
    second.open(path, Access::Read).is_ok()
        && fails_as(second.lock(Lock::Shared), ErrorKind::WouldBlock)
        && is(second.read(0, &mut buffer), 3)
        && buffer == *b"\0ab"
        && is(second.read(3, &mut buffer), 0)
        && second.write(0, b"a").is_err()
}

fn is_passed_on<R: Files<File = File> + AllocGlobal>(rt: &R, link: &str) -> bool {
    let mut system = HostSystem::new(rt);
    fails(&mut system) && tells_kinds(&mut system) && passes_errors_on(&mut system, link)
}

#[test]
fn errors_of_the_system_are_passed_on(rt: HostRuntime) -> Result<(), Fail> {
    let link = "errors_of_the_system_are_passed_on.link";
    let _ = fs::remove_file(&rt, link);
    symlink(&rt, "/proc/version", link)?;
    assert!(rt; is_passed_on(&rt, link));
    fs::remove_file(&rt, link)?;
    Ok(())
}

fn is_kept<R: Files<File = File> + AllocGlobal>(rt: &R, path: &str) -> bool {
    let mut system = HostSystem::new(rt);
    let mut second = HostSystem::new(rt);
    keeps_bytes(&mut system, path) && only_reads(&mut second, path)
}

#[test]
fn a_file_of_the_system_is_kept(rt: HostRuntime) -> Result<(), Fail> {
    let path = "a_file_of_the_system_is_kept.store";
    let _ = fs::remove_file(&rt, path);
    assert!(rt; is_kept(&rt, path));
    fs::remove_file(&rt, path)?;
    Ok(())
}
