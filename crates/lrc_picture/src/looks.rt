//! How a picture looks: what its file has in it whatever the run.

/// How marks, lines and words look: on a white page, on a dark one where that is preferred, and white again on paper. Each
/// mark stands round the point (0, 0).
pub const LOOKS: &str = "<style>
text{font:13px monospace;fill:#222;paint-order:stroke;stroke:#fff;stroke-width:4px}
.title{font-size:15px;font-weight:bold}
.head{font-weight:bold}
.number{fill:#777;text-anchor:end}
.beside{text-anchor:end;font-weight:bold;fill:#c00}
.page{fill:#fff}
.lane{stroke:#999}
.ink{fill:#222}
.outline{fill:#fff;stroke:#222;stroke-width:2}
.stroke{fill:none;stroke:#222;stroke-width:4}
.slash{fill:none;stroke:#c00;stroke-width:3}
.lock,.flag,.holder{fill:none;stroke:#25a;stroke-width:1.5;marker-end:url(#tip)}
.flag{stroke-dasharray:7 3}
.holder{stroke-dasharray:3 2}
.tip{fill:#25a}
.edge{fill:none;stroke:#283;stroke-width:1}
.near{fill:none;stroke:transparent;stroke-width:9}
.reads:hover .edge{stroke-width:3}
.barrier{stroke:#678;stroke-width:4}
.race,.racing{fill:none;stroke:#c00;stroke-width:2}
.race{stroke-dasharray:2 3}
@media screen and (prefers-color-scheme:dark){
text{fill:#ddd;stroke:#181818}
.number{fill:#999}
.beside{fill:#f66}
.page{fill:#181818}
.lane{stroke:#777}
.ink{fill:#ddd}
.outline{fill:#181818;stroke:#ddd}
.stroke{stroke:#ddd}
.slash,.race,.racing{stroke:#f66}
.lock,.flag,.holder{stroke:#8bf}
.tip{fill:#8bf}
.edge{stroke:#6c8}
.barrier{stroke:#9ab}
}
</style>
<defs>
<marker id=\"tip\" viewBox=\"0 0 10 8\" markerUnits=\"userSpaceOnUse\" markerWidth=\"10\" markerHeight=\"8\" refX=\"9\" refY=\"4\" orient=\"auto\"><path class=\"tip\" d=\"M 0 0 L 10 4 L 0 8 Z\"/></marker>
<circle class=\"ink\" id=\"disc\" r=\"5\"/>
<circle class=\"outline\" id=\"ring\" r=\"4.5\"/>
<path class=\"slash\" id=\"slash\" d=\"M-7 7L7 -7\"/>
<path class=\"stroke\" id=\"dash\" d=\"M-8 0H8\"/>
<path class=\"outline\" id=\"frame\" d=\"M-4.5 -4.5H4.5V4.5H-4.5Z\"/>
<path class=\"ink\" id=\"block\" d=\"M-5 -5H5V5H-5Z\"/>
<path class=\"ink\" id=\"wedge\" d=\"M-6 -5H6L0 6Z\"/>
<path class=\"stroke\" id=\"stop\" d=\"M-5 -5L5 5M5 -5L-5 5\"/>
<path class=\"racing\" id=\"racing\" d=\"M-10 0L0 -10L10 0L0 10Z\"/>
</defs>
";
