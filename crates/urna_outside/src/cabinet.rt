ghost use Rattle.std.specs.Prelude.{◌≡◌, ◌≤◌, IfOk, OnOk, OnErr, IsErrOf, vec_len};
ghost use Rattle.std.specs.Option.{ForSome, option_map};
ghost use Rattle.urna_outside.specs.Told.{one_more};
ghost use Rattle.urna_outside.specs.Cabinet.{CabinetTold, CountsFault, CountsMissing, CountsTooLong, Holds, HoldsLonger, Lacks, PutsInto};

use crate::Failed;
use std::alloc::Global;

/// Why a file was not taken.
#[derive(Clone, Copy, Debug, PartialEq, Eq)]
pub enum CabinetError {
    /// Want of memory.
    Memory,
    /// The cabinet failed, and its count of faults rose.
    Failed,
    /// There is no file of that name, and the count of names not found rose.
    Missing,
    /// The file is longer than the limit, and the count of files found too long rose.
    TooLong,
}

/// Where files are taken from and put: a folder, or a shelf in memory.
///
/// A cabinet always tells three counts (`specs/Cabinet.antt`). It may tell the map from names to bytes and the
/// number of calls made. What it tells, it tells before and after each call.
pub trait Cabinet {
    ghost told: { Self → CabinetTold };

    /// The bytes of a file, which are at most `limit`. It leaves the files as they were.
    ///
    /// Want of memory alone has no cause here. Where the map is told and the call neither failed nor wanted
    /// memory, it answers Missing exactly where the map lacks the name, and TooLong exactly where the file is
    /// there and longer than `limit`.
    fn take(&mut self, alloc: Global, name: &str, limit: u32) -> Result<Vec<u8>, CabinetError>
        ensures ok { OnOk result ((told self.new).tally ≡ (told self.old).tally) }
        ensures limit { IfOk result (λ bytes. vec_len bytes ≤ limit) }
        ensures bytes { IfOk result
            (λ bytes. ForSome (told self.old).files (Holds name.now bytes.items)) }

        ensures memory { IsErrOf result CabinetError.Memory →
            (told self.new).tally ≡ (told self.old).tally }
        ensures failed { IsErrOf result CabinetError.Failed →
            CountsFault (told self.old).tally (told self.new).tally }

        ensures missing { IsErrOf result CabinetError.Missing →
            CountsMissing (told self.old).tally (told self.new).tally }
        ensures lacking { IsErrOf result CabinetError.Missing →
            ForSome (told self.old).files (Lacks name.now) }

        ensures too_long { IsErrOf result CabinetError.TooLong →
            CountsTooLong (told self.old).tally (told self.new).tally }
        ensures longer { IsErrOf result CabinetError.TooLong →
            ForSome (told self.old).files (HoldsLonger name.now limit) }

        ensures files { (told self.new).files ≡ (told self.old).files }
        ensures calls { (told self.new).calls ≡ option_map one_more (told self.old).calls };

    /// Puts a file, in the stead of one of the same name. It takes no memory of the caller's.
    ///
    /// After Ok the name has these bytes, and the three counts are as they were. After Failed the count of faults has risen,
    /// the name may hold anything or be missing, and the two other counts are as they were. All other names stay, and whether
    /// files and calls are told doesn't change.
    fn put(&mut self, name: &str, bytes: &[u8]) -> Result<(), Failed>
        ensures ok { OnOk result ((told self.new).tally ≡ (told self.old).tally) }
        ensures failed { OnErr result (CountsFault (told self.old).tally (told self.new).tally) }

        ensures there { OnOk result (ForSome (told self.new).files (Holds name.now bytes.now)) }
        ensures others { PutsInto name.now (told self.old).files (told self.new).files }
        ensures calls { (told self.new).calls ≡ option_map one_more (told self.old).calls };
}
