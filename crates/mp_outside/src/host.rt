// The files and streams of the host: the edge that is trusted.
mod files;
mod sink;

pub use self::files::HostFiles;
pub use self::sink::HostSink;
