//! What the words of the command line ask the program to do.
//!
//! A job depends only on the words, not on any file, so that bad words are refused before a file is opened. A new
//! command is a variant of `Job`; a new format is a variant of `Format` and of `Source`.

/// The form of a text that lists devices and their tables.
#[derive(Clone, Copy)]
pub enum TableForm {
    /// Lines `NAME: START LEN TYPE ARGS`, as `dmsetup table` prints them.
    Table,
    /// All devices in one line, as `dmsetup table --concise` prints them.
    Concise,
}

/// The format of FILE's text.
#[derive(Clone, Copy)]
pub enum Format {
    /// The LVM2 metadata of a volume group, as vgcfgbackup(8) writes it.
    Lvm,
    /// Devices and their tables, in this form.
    Tables(TableForm),
}

/// What a command loads. Each file is given by its path, which isn't checked here.
#[derive(Clone, Copy)]
pub enum Source<'a> {
    /// A text in a format, with a list of disks unless the text names its disks itself.
    Files {
        format: Format,
        file: &'a str,
        disks: Option<&'a str>,
    },
    /// A list of images of a volume group's disks: the metadata at the front of each describes the group.
    Images {
        list: &'a str,
    },
}

/// The range of a device's sectors to read.
#[derive(Clone, Copy)]
pub struct SectorRange<'a> {
    /// The device's name.
    pub device: &'a str,
    /// The first sector to read.
    pub from: u64,
    /// How many sectors to read, or `None` to read all up to the end of the device.
    pub count: Option<u64>,
}

/// What the words of the command line ask for, with texts borrowed from these words.
#[derive(Clone, Copy)]
pub enum Job<'a> {
    /// Map the requests of the standard input through the tables of a source. The run starts in the state that the
    /// exception stores hold, if the source is images or `paths` names a list of paths, and first plays the requests of
    /// the file `earlier`, if there is one. With `status`, status lines of the snapshots follow the output.
    Map {
        source: Source<'a>,
        paths: Option<&'a str>,
        earlier: Option<&'a str>,
        status: bool,
    },
    /// Print the LVM2 text in the images that this list of paths names.
    Metadata(&'a str),
    /// Print the devices of a source, in this form.
    Print {
        form: TableForm,
        source: Source<'a>,
    },
    /// Check the devices of a source, and print whether two of their lines claim the same sector.
    Check(Source<'a>),
    /// Replay the requests of the standard input on the disks of a source. The replay starts in the state that the
    /// exception stores hold, if the source is images or `paths` names a list of paths.
    Replay {
        source: Source<'a>,
        paths: Option<&'a str>,
    },
    /// Write the bytes of a device's sectors, in the state that the exception stores hold. The images are those of the
    /// source, or those that `paths` lists.
    Read {
        source: Source<'a>,
        paths: Option<&'a str>,
        range: SectorRange<'a>,
    },
    /// Print the device-mapper name of a logical volume, or of a layer of it.
    Name {
        vg: &'a str,
        lv: &'a str,
        layer: Option<&'a str>,
    },
    /// Print the parts of a logical volume's device-mapper name.
    SplitName(&'a str),
    /// Print what the manual says about a word of messages.
    Explain(&'a str),
}
