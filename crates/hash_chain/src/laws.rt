//! What is so of every file of parts. Each function here does nothing: its contract is the law.
ghost use Rattle.hash_chain.specs.Laws.{FewBytes, HashesAreHashes, LinksAreSpelled, NeverBoth, OneCut, OneFault, OneOfBoth};

/// Fields are cut in one way; a line is read exactly where it is written so; a hash has the form of a hash; and the file of a text is not
/// much longer than the text.
pub fn parts()
    ensures one_cut { OneCut }
    ensures lines { LinksAreSpelled }
    ensures hashes { HashesAreHashes }
    ensures few { FewBytes }
{}

/// A file that is shorter than 2^63 bytes has one fault, or it is the parts of one field text, and never both.
pub fn files()
    ensures one_of_both { OneOfBoth }
    ensures never_both { NeverBoth }
    ensures one_fault { OneFault }
{}
