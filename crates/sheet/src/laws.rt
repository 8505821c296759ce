ghost use Rattle.sheet.specs.Sheets.{SheetsFit, OneSheet};

// At the end of every story the sheet of the game fits a page.
pub fn sheets_fit()
    ensures { SheetsFit }
{}

// At the end of every story the game has a sheet, and only one text.
pub fn one_sheet()
    ensures { OneSheet }
{}
