// What is proved of the sheet format, whatever program reads or writes sheets: the law of sheets, and how a beginning of a sheet grows by a record.
// There is no code here. The contracts of the check and of the writer state these theorems, by the format's definitions. They stand apart from
// `sheet_format`, since each must-fail edit of one of its types would have them checked again.
#![tactic(auto)]
