//! The page's own constants. All markup of a page stems from them.

ghost use Rattle.std.specs.Prelude.{◌≡◌};
ghost use Rattle.chart_page.specs.Marks.{text_of};

/// The head of the page, up to its style sheet.
const HEAD: &[u8] = b"<!DOCTYPE html>\n\
<html lang='en'>\n\
<head>\n\
<meta charset='windows-1252'>\n\
<meta http-equiv='Content-Security-Policy' content=\"default-src 'none'; style-src 'unsafe-inline'; script-src 'unsafe-inline'\">\n\
<title>Plan of a day</title>\n\
<style>\n";

/// The style sheet. The colours are those of Okabe and Ito, which people with each kind of colour blindness tell apart.
const STYLE: &[u8] =
    b"body{font:14px/1.4 system-ui,sans-serif;margin:16px;color:#111;background:#fff}\n\
h1{font-size:20px;margin:0 0 8px}\n\
h2{font-size:16px;margin:18px 0 6px}\n\
table{border-collapse:collapse}\n\
th,td{border:1px solid #bbb;padding:2px 10px;text-align:right}\n\
th{text-align:left;font-weight:600}\n\
thead th{background:#eee}\n\
.find input{font:inherit;width:10em}\n\
.note,.find output{color:#444}\n\
.keys{margin:4px 0}\n\
.keys span{display:inline-block;margin-right:16px;white-space:nowrap}\n\
.keys i{display:inline-block;width:26px;height:13px;margin-right:5px;border:1px solid #333;vertical-align:-2px}\n\
.chart{overflow:auto;max-height:85vh;border:1px solid #bbb}\n\
.chart>svg{display:block;font:9px system-ui,sans-serif}\n\
path{stroke:#333;stroke-width:.6;vector-effect:non-scaling-stroke}\n\
path:hover,.found{stroke:#000;stroke-width:3}\n\
.grid{stroke:#ccc}\n\
.names path{stroke:#000;stroke-width:1}\n\
.names text.share{font-weight:700}\n\
rect{fill:#fff}\n\
.hours text{text-anchor:middle;font-size:11px}\n\
.names text{font-size:10px}\n\
svg svg svg{pointer-events:none}\n\
.pull-out{fill:#E69F00;background:#E69F00}\n\
.trip,.piece{fill:#56B4E9;background:#56B4E9}\n\
.deadhead,.pause{fill:#F0E442;background:#F0E442}\n\
.stand{fill:#fff;background:#fff}\n\
.pull-in{fill:#D55E00;background:#D55E00}\n\
.duty{fill:#ddd;background:#ddd}\n\
.break{fill:#009E73;background:#009E73}\n\
@page{size:A3 landscape;margin:10mm}\n\
@media print{\n\
body{margin:0}\n\
.find{display:none}\n\
.chart{overflow:visible;max-height:none;border:0}\n\
.chart>svg{max-width:100%;height:auto;max-height:185mm}\n\
.chart+h2{break-before:page}\n\
*{print-color-adjust:exact;-webkit-print-color-adjust:exact}\n\
}\n";

/// The heading, and the head of the table of bounds.
const BODY: &[u8] = b"</style>\n\
</head>\n\
<body>\n\
<h1>Plan of a day: vehicle blocks and driver duties</h1>\n\
<table>\n\
<thead><tr><th></th><th>plan</th><th>bound</th><th>distance</th></tr></thead>\n\
<tbody>\n";

/// What stands between the bounds and the chart of the blocks: the search and the legend.
const BLOCKS: &[u8] = b"</tbody>\n\
</table>\n\
<p>No plan lies below a bound: none has fewer blocks or cheaper ones, and none of the same blocks has fewer duties or cheaper ones.\n\
A distance is how far the plan lies above the bound, in per cent of the bound.</p>\n\
<p class='find'><label>Find a trip by its number: <input id='trip' inputmode='numeric'></label> <output id='found'></output></p>\n\
<h2>Vehicle blocks by pool</h2>\n\
<p class='keys'><span><i class='pull-out'></i>pull-out</span><span><i class='trip'></i>trip (number; line and variant)</span>\n\
<span><i class='deadhead'></i>deadhead</span><span><i class='stand'></i>stand</span><span><i class='pull-in'></i>pull-in</span></p>\n";

/// The legend of the chart of the duties.
const DUTIES: &[u8] = b"<h2>Driver duties by group</h2>\n\
<p class='keys'><span><i class='duty'></i>sign-on and sign-off, with their ways</span><span><i class='piece'></i>piece (block/piece)</span>\n\
<span><i class='pause'></i>pause below 45 minutes</span><span><i class='break'></i>pause of 45 minutes or more\n\
(a full break, less handover and way)</span></p>\n";

/// What stands behind the charts.
const TAIL: &[u8] =
    b"<p class='note'>Times are those of the operating day: 25:30 is half past one in the following night.</p>\n\
<script>\n";

/// The script: a search of the trips by the attributes that hold their numbers.
const SCRIPT: &[u8] = b"(function(){\n\
var trip=document.getElementById('trip'),found=document.getElementById('found');\n\
trip.oninput=function(){\n\
var wanted=trip.value.trim(),first=null,count=0;\n\
document.querySelectorAll('.found').forEach(function(bar){bar.classList.remove('found')});\n\
document.querySelectorAll('[data-trip]').forEach(function(bar){\n\
if(bar.getAttribute('data-trip')!==wanted)return;\n\
bar.classList.add('found');count+=1;first=first||bar;\n\
});\n\
found.textContent=wanted===''?'':count+' found';\n\
if(first)first.scrollIntoView({block:'center',inline:'center'});\n\
};\n\
})();\n";

/// A constant of the page.
#[derive(Clone, Copy)]
pub enum Mark {
    Head,
    Style,
    Body,
    RowOpen,
    BlockNumber,
    BlockCost,
    DutyNumber,
    DutyCost,
    ValueOpen,
    NextCell,
    Dot,
    PerCent,
    Dash,
    RowClose,
    Blocks,
    Duties,
    Tail,
    Script,
    End,
    ChartOpen,
    Blank,
    WidthIs,
    HeightIs,
    LanesOpen,
    ViewIs,
    ZeroTop,
    LanesBegin,
    GridOpen,
    GridTo,
    ShapeClose,
    HoursOpen,
    HoursBegin,
    HourOpen,
    HourBegin,
    TextClose,
    NamesOpen,
    NamesLanes,
    NamesView,
    ChartClose,
    DataTrip,
    TripTitle,
    OfLine,
    PullOutTitle,
    DeadheadTitle,
    StandTitle,
    PullInTitle,
    Colon,
    To,
    FromPoint,
    OfType,
    ToPoint,
    InBlock,
    LegNumber,
    TitleClose,
    LabelOpen,
    LabelTop,
    LabelBegin,
    LabelNext,
    LabelClose,
    PieceTitle,
    OfBlock,
    OfDuty,
    Driving,
    DutyTitle,
    OfGroup,
    SignOn,
    SignOff,
    Spread,
    Cost,
    PauseTitle,
    ShareOpen,
    PoolOpen,
    PoolBegin,
    GroupBegin,
    NameOpen,
    BlockName,
    DutyName,
    VehicleName,
    SpreadName,
    NoVehicle,
    Slash,
}

impl Mark {
    /// Its bytes.
    #[tactic(auto, unfolding(crate::specs::Marks::text_of))]
    pub fn text(self) -> &'static [u8]
        ensures { result.now ≡ text_of self }
    {
        match self {
            Mark::Head => HEAD,
            Mark::Style => STYLE,
            Mark::Body => BODY,
            Mark::RowOpen => b"<tr><th>",
            Mark::BlockNumber => b"Vehicle blocks",
            Mark::BlockCost => b"Cost of the blocks",
            Mark::DutyNumber => b"Driver duties",
            Mark::DutyCost => b"Cost of the duties",
            Mark::ValueOpen => b"</th><td>",
            Mark::NextCell => b"</td><td>",
            Mark::Dot => b".",
            Mark::PerCent => b" %",
            Mark::Dash => b"&#8211;",
            Mark::RowClose => b"</td></tr>\n",
            Mark::Blocks => BLOCKS,
            Mark::Duties => DUTIES,
            Mark::Tail => TAIL,
            Mark::Script => SCRIPT,
            Mark::End => b"</script>\n</body>\n</html>\n",
            Mark::ChartOpen => b"<div class='chart'><svg viewBox='0 0 ",
            Mark::Blank => b" ",
            Mark::WidthIs => b"' width='",
            Mark::HeightIs => b"' height='",
            Mark::LanesOpen => b"'><svg x='240' y='30' width='",
            Mark::ViewIs => b"' viewBox='",
            Mark::ZeroTop => b" 0 ",
            Mark::LanesBegin => b"' preserveAspectRatio='none'>\n",
            Mark::GridOpen => b"<path class='grid' d='M",
            Mark::GridTo => b" 0V",
            Mark::ShapeClose => b"'/>\n",
            Mark::HoursOpen => b"</svg>\n<g class='hours'><rect width='",
            Mark::HoursBegin => b"' height='30'/>\n",
            Mark::HourOpen => b"<text x='",
            Mark::HourBegin => b"' y='20'>",
            Mark::TextClose => b"</text>\n",
            Mark::NamesOpen => b"</g>\n<g class='names'><rect width='240' height='",
            Mark::NamesLanes => b"'/><svg y='30' width='240' height='",
            Mark::NamesView => b"' viewBox='0 0 240 ",
            Mark::ChartClose => b"</svg></g></svg></div>\n",
            Mark::DataTrip => b" data-trip='",
            Mark::TripTitle => b"'><title>Trip ",
            Mark::OfLine => b", line ",
            Mark::PullOutTitle => b"><title>Pull-out",
            Mark::DeadheadTitle => b"><title>Deadhead",
            Mark::StandTitle => b"><title>Stand",
            Mark::PullInTitle => b"><title>Pull-in",
            Mark::Colon => b": ",
            Mark::To => b" to ",
            Mark::FromPoint => b", from point ",
            Mark::OfType => b" of type ",
            Mark::ToPoint => b" to point ",
            Mark::InBlock => b"; block ",
            Mark::LegNumber => b", leg ",
            Mark::TitleClose => b"</title></path>\n",
            Mark::LabelOpen => b"<svg x='",
            Mark::LabelTop => b"' y='",
            Mark::LabelBegin => b".1' height='.8'><text transform='scale(40 .03846)' x='2' y='9'>",
            Mark::LabelNext => b"</text><text transform='scale(40 .03846)' x='2' y='18'>",
            Mark::LabelClose => b"</text></svg>\n",
            Mark::PieceTitle => b"><title>Piece ",
            Mark::OfBlock => b" of block ",
            Mark::OfDuty => b", duty ",
            Mark::Driving => b", driving ",
            Mark::DutyTitle => b"><title>Duty ",
            Mark::OfGroup => b" of group ",
            Mark::SignOn => b": sign-on ",
            Mark::SignOff => b", sign-off ",
            Mark::Spread => b", spread ",
            Mark::Cost => b", cost ",
            Mark::PauseTitle => b"><title>Pause of ",
            Mark::ShareOpen => b"<path class='share' d='M0 ",
            Mark::PoolOpen => b"H240'/><text class='share' transform='translate(6 ",
            Mark::PoolBegin => b") scale(1 .03846)' y='17'>Pool ",
            Mark::GroupBegin => b") scale(1 .03846)' y='17'>Group ",
            Mark::NameOpen => b"<text transform='translate(74 ",
            Mark::BlockName => b") scale(1 .03846)' y='11'>Block ",
            Mark::DutyName => b") scale(1 .03846)' y='11'>Duty ",
            Mark::VehicleName => b") scale(1 .03846)' y='22'>vehicle type ",
            Mark::SpreadName => b") scale(1 .03846)' y='22'>spread ",
            Mark::NoVehicle => b"none",
            Mark::Slash => b"/",
        }
    }
}
