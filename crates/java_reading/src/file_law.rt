ghost use Rattle.java_reading.specs.FileLaws.{OneFile, FindsFiles, GivesFiles, RefusesFiles, RefusesHighFiles, FileHeightIsLeast};

/// No tokens are two files, whatever their heights.
pub fn one_file()
    ensures { OneFile }
{}

/// Reading finds the classes of the file that spells the tokens, and gives no others. It answers that a tree is too
/// high only where there are as many tokens as the height that is allowed.
pub fn files_are_read()
    ensures finds { FindsFiles }
    ensures gives { GivesFiles }
    ensures refuses { RefusesFiles }
    ensures too_high { RefusesHighFiles }
{}

/// The height of a file is the least number with which it spells its tokens.
pub fn file_height_is_least()
    ensures { FileHeightIsLeast }
{}
