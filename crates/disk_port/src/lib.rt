//! Disks: the file that a journal is kept in, as it looks to a program that may be stopped at any moment.
//!
//! A disk gives three facts: what a read gives, which files a crash now may leave (its images), and which were images at
//! some moment since an earlier one. Two kinds in memory tell all three and meet the model of `Disk` by proof. `FileDisk`,
//! a file of the machine, tells nothing of what it holds: it promises lengths, counts and causes. That a real file is
//! such a disk is not proved here, nor can it be.
#![tactic(auto)]

mod contents;
mod disk;
mod event;
mod file_disk;
mod late_file;
mod mem_disk;
mod replay;
mod sure_disk;

pub use disk::{Disk, DiskFailed};
pub use event::Event;
pub use file_disk::FileDisk;
pub use mem_disk::MemDisk;
pub use sure_disk::SureDisk;
