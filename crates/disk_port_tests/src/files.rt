use disk_port::{Disk, DiskFailed, FileDisk};
use std::fs::{self, File};
use std::process::Abort;
use std::rt::Files;
use std::{env, process};

/// A file that nobody may write, whoever they are.
const UNWRITABLE: &str = "/proc/sys/kernel/random/boot_id";
/// A device that has no room.
const FULL: &str = "/dev/full";

fn text<R: Abort + AllocGlobal>(rt: &R, text: &str) -> String {
    format!(in rt.alloc(); "{text}").expect(rt, "memory")
}

/// A folder of a test's own, empty, below the one for temporary files.
fn make_folder<R: Files + Abort + AllocGlobal>(
    rt: &R,
    parent: &str,
    process: u32,
    name: &str,
) -> String {
    let folder = format!(in rt.alloc(); "{parent}/disk_port_{process}_{name}").expect(rt, "memory");
    if fs::exists(rt, folder.as_str()).expect(rt, "a folder") {
        fs::remove_dir_all(rt, folder.as_str()).expect(rt, "a folder");
    }
    fs::create_dir_all(rt, folder.as_str()).expect(rt, "a folder");
    folder
}

/// Asserts that each call fails, and counts a fault.
fn expect_faults<R: Abort + Drop + Files<File = File>>(rt: &R, mut disk: FileDisk<R>) {
    let mut into = [0; 1];
    assert_eq!(rt; disk.len(), Err(DiskFailed));
    assert_eq!(rt; disk.read(0, &mut into), Err(DiskFailed));
    assert_eq!(rt; disk.write_at(0, &[1]), Err(DiskFailed));
    assert_eq!(rt; disk.sync(), Err(DiskFailed));
    assert_eq!(rt; disk.faults(), 4);
}

#[test]
fn a_file_is_made_written_and_read_again(rt: HostRuntime) {
    let parent = env::temp_dir(&rt).expect(&rt, "a folder");
    let process = process::id(rt.process());
    let folder = make_folder(&rt, parent.as_str(), process, "made");
    let path = format!(in rt.alloc(); "{}/journal", folder.as_str()).expect(&rt, "memory");
    let mut disk = FileDisk::making(rt.clone().expect(&rt, "a handle"), text(&rt, path.as_str()));
    assert_eq!(rt; disk.len(), Ok(0));
    assert_eq!(rt; disk.write_at(2, &[3, 4]), Ok(()));
    assert_eq!(rt; disk.write_at(0, &[1]), Ok(()));
    assert_eq!(rt; disk.sync(), Ok(()));
    assert_eq!(rt; disk.sync(), Ok(()));
    assert_eq!(rt; disk.faults(), 0);
    let mut again = FileDisk::new(rt.clone().expect(&rt, "a handle"), path);
    let mut into = [9; 8];
    assert_eq!(rt; again.len(), Ok(4));
    assert_eq!(rt; again.read(0, &mut into), Ok(4));
    assert_eq!(rt; &into[..4], [1, 0, 3, 4].as_slice());
    assert_eq!(rt; again.read(3, &mut into[..1]), Ok(1));
    assert_eq!(rt; into[0], 4);
    assert_eq!(rt; again.read(4, &mut into), Ok(0));
    assert_eq!(rt; again.read(u64::MAX, &mut into), Err(DiskFailed));
    assert_eq!(rt; again.faults(), 1);
    fs::remove_dir_all(&rt, folder.as_str()).expect(&rt, "a folder");
}

#[test]
fn files_that_cannot_be_opened(rt: HostRuntime) {
    let parent = env::temp_dir(&rt).expect(&rt, "a folder");
    let process = process::id(rt.process());
    let folder = make_folder(&rt, parent.as_str(), process, "refused");
    let absent = format!(in rt.alloc(); "{}/absent", folder.as_str()).expect(&rt, "memory");
    expect_faults(
        &rt,
        FileDisk::new(
            rt.clone().expect(&rt, "a handle"),
            text(&rt, absent.as_str()),
        ),
    );
    assert!(rt; !fs::exists(&rt, absent.as_str()).expect(&rt, "a folder"));
    let no_folder = format!(in rt.alloc(); "{}/absent/file", folder.as_str()).expect(&rt, "memory");
    expect_faults(
        &rt,
        FileDisk::making(rt.clone().expect(&rt, "a handle"), no_folder),
    );
    expect_faults(
        &rt,
        FileDisk::new(
            rt.clone().expect(&rt, "a handle"),
            text(&rt, folder.as_str()),
        ),
    );
    expect_faults(
        &rt,
        FileDisk::making(
            rt.clone().expect(&rt, "a handle"),
            text(&rt, folder.as_str()),
        ),
    );
    expect_faults(
        &rt,
        FileDisk::new(rt.clone().expect(&rt, "a handle"), text(&rt, UNWRITABLE)),
    );
    fs::remove_dir_all(&rt, folder.as_str()).expect(&rt, "a folder");
}

#[test]
fn a_file_that_is_made_later_is_found(rt: HostRuntime) {
    let parent = env::temp_dir(&rt).expect(&rt, "a folder");
    let process = process::id(rt.process());
    let folder = make_folder(&rt, parent.as_str(), process, "later");
    let path = format!(in rt.alloc(); "{}/journal", folder.as_str()).expect(&rt, "memory");
    let mut disk = FileDisk::new(rt.clone().expect(&rt, "a handle"), text(&rt, path.as_str()));
    assert_eq!(rt; disk.len(), Err(DiskFailed));
    fs::write(&rt, path.as_str(), "abc").expect(&rt, "a file");
    assert_eq!(rt; disk.len(), Ok(3));
    assert_eq!(rt; disk.faults(), 1);
    fs::remove_dir_all(&rt, folder.as_str()).expect(&rt, "a folder");
}

#[test]
fn a_full_device(rt: HostRuntime) {
    let mut disk = FileDisk::new(rt.clone().expect(&rt, "a handle"), text(&rt, FULL));
    assert_eq!(rt; disk.len(), Ok(0));
    assert_eq!(rt; disk.write_at(0, &[1, 2, 3]), Err(DiskFailed));
    assert_eq!(rt; disk.faults(), 1);
}
