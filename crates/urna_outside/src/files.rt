//! The machine and the cabinet of a real run: files of the working folder, and standard output.
mod file_lock;
mod file_machine;
mod flash_file;
mod flash_files;
mod folder_cabinet;
mod new_file;
mod put_file;

pub use file_lock::FileLock;
pub use file_machine::FileMachine;
pub use folder_cabinet::FolderCabinet;
